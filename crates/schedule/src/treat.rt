// The treatment of a record.
ghost use Rattle.schedule.specs.Stand.{runs, treated, shown};
ghost use Rattle.schedule.specs.Bytes.{on_bytes, Does};

use crate::record::{BadRecord, Record};
use crate::records::Entry;
use crate::stand::Stand;
use control::answer;

// The code for an unknown kind and for a cut record.
const BAD_RECORD: u64 = 15;

// A line of the table: "record from 0, kind byte, code, value", and the lost exchanges that the answer tells.
#[derive(Drop)]
pub struct Line {
    pub number: u64,
    pub kind: u8,
    pub code: u64,
    pub value: u64,
    pub lost: u32,
}

impl<'a> Stand<'a> {
    // "5 run .. stops at a finish, an end or a refusal (most 0: code 0, no call made)". It answers as the last call.
    fn run(&mut self, task: u8, most: u16) -> u64
        ensures { Does (runs on_bytes 0 task most) self.old self.new result }
    {
        for _ in 0..most {
            let answer = self.step(task);
            if answer != 0 {
                return answer;
            }
        }
        0
    }

    // What a record does to the three memories, and what it answers, as one number for C.
    pub fn treat(&mut self, body: Result<Record, BadRecord>) -> u64
        ensures { Does (treated on_bytes body) self.old self.new result }
    {
        match body {
            Ok(Record::Start(tasks, regions)) => self.start(tasks, regions),
            Ok(Record::Allocate(task, size)) => self.allocate(task, size),
            Ok(Record::Free(task, unit)) => self.free(task, unit),
            Ok(Record::Step(task)) => self.step(task),
            Ok(Record::Run(task, most)) => self.run(task, most),
            Ok(Record::Leave(task)) => self.leave(task),
            Err(_) => BAD_RECORD,
        }
    }

    // What a record does to the three memories, and its line.
    pub fn show(&mut self, entry: Entry) -> Line
        ensures { Does (shown on_bytes entry) self.old self.new result }
    {
        let number = self.treat(entry.body);
        Line {
            number: entry.number,
            kind: entry.kind,
            code: number % answer::CODES,
            value: number / answer::CODES % answer::VALUES,
            lost: (number / answer::ONE_LOST) as u32,
        }
    }
}

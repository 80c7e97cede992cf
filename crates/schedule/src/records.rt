// The records of a schedule one after the other.
ghost use Rattle.std.specs.Prelude.{◌≡◌, ◌-◌, ◌≤◌, length};
ghost use Rattle.std.specs.Iterator.{at_most};
ghost use Rattle.schedule.specs.Records.{INPUT_BYTES};

use crate::record::{BadRecord, Record};

// A record, or why it is bad, with what its line repeats: its number, from 0, and its kind byte.
#[derive(Clone, Copy)]
pub struct Entry {
    pub number: u64,
    pub kind: u8,
    pub body: Result<Record, BadRecord>,
}

// The records from the byte `at` on, the first of which has this number. A bad one is the last.
#[derive(Drop)]
pub struct Records<'a> {
    pub input: &'a [u8],
    pub at: usize,
    pub number: u64,
    pub ghost short: { length input.now ≤ INPUT_BYTES },
    pub ghost numbered: { number ≤ at },
}

impl<'a> Records<'a> {
    ghost use Rattle.schedule.specs.Reading.{Begins};

    // All records of an input.
    pub fn of(input: &'a [u8]) -> Records<'a>
        requires { length input.now ≤ INPUT_BYTES }
        ensures { Begins input.now result }
    {
        Records {
            input,
            at: 0,
            number: 0,
        }
    }
}

impl<'a> Iterator for Records<'a> {
    ghost use Rattle.schedule.specs.Reading.{Reads};

    type Item = Entry;

    ghost next_gives = { Reads };

    ghost remaining = { λ s. at_most (length s.input.now - s.at) };

    fn next(&mut self) -> Option<Entry> {
        if self.input.len() <= self.at {
            return None;
        }
        let entry = Entry {
            number: self.number,
            kind: self.input[self.at],
            body: Record::read(self.input, self.at),
        };
        self.at = match entry.body {
            Ok(record) => self.at + record.kind().bytes(),
            Err(_) => self.input.len(),
        };
        self.number += 1;
        Some(entry)
    }
}

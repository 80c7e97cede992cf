// The records of a schedule: "one byte of kind, then a body".
ghost use Rattle.std.specs.Prelude.{◌≡◌, ◌<◌, ◌≤◌, length};
ghost use Rattle.schedule.specs.Records.{INPUT_BYTES, WIDE_BYTES, KindIs, bytes_of, kind_in, record_at};

use fields::Number;

const START_BYTES: usize = 3;

const TASK_BYTES: usize = 2;

const WIDE_BYTES: usize = 4;

// Where the body's numbers stand behind the record's first byte.
const TASK_AT: usize = 1;

const NUMBER_AT: usize = 2;

// What a record asks for.
#[derive(Clone, Copy, Debug)]
pub enum Kind {
    Start,
    Allocate,
    Free,
    Step,
    Run,
    Leave,
}

#[derive(Clone, Copy, Debug)]
pub enum Record {
    // Tasks and regions.
    Start(u8, u8),
    // A task and a size.
    Allocate(u8, u16),
    // A task and a unit.
    Free(u8, u16),
    // A task.
    Step(u8),
    // A task and the most steps.
    Run(u8, u16),
    // A task.
    Leave(u8),
}

// Why the bytes at a place are no record. The stand treats both in the same way.
#[derive(Clone, Copy, Debug)]
pub enum BadRecord {
    UnknownKind,
    // The end of the input cuts the record short.
    Cut,
}

impl TryFrom<u8> for Kind {
    type Error = BadRecord;

    ghost try_from_gives = { KindIs };

    #[tactic(auto, unfolding(crate::specs::Records::kind_of))]
    fn try_from(byte: u8) -> Result<Self, BadRecord> {
        match byte {
            1 => Ok(Kind::Start),
            2 => Ok(Kind::Allocate),
            3 => Ok(Kind::Free),
            4 => Ok(Kind::Step),
            5 => Ok(Kind::Run),
            6 => Ok(Kind::Leave),
            _ => Err(BadRecord::UnknownKind),
        }
    }
}

impl Kind {
    // How many bytes a record of this kind has, the kind's byte with it.
    pub fn bytes(self) -> usize
        ensures bytes { result ≡ bytes_of self }
        ensures within { (TASK_AT < result) × (result ≤ WIDE_BYTES) }
    {
        match self {
            Kind::Start => START_BYTES,
            Kind::Allocate => WIDE_BYTES,
            Kind::Free => WIDE_BYTES,
            Kind::Step => TASK_BYTES,
            Kind::Run => WIDE_BYTES,
            Kind::Leave => TASK_BYTES,
        }
    }
}

impl Record {
    // The record that begins at a byte of the input.
    #[tactic(auto, unfolding(crate::specs::Records::record_at))]
    pub fn read(input: &[u8], at: usize) -> Result<Record, BadRecord>
        requires { (at < length input.now) × (length input.now ≤ INPUT_BYTES) }
        ensures { result ≡ record_at input.now at }
    {
        let kind = Kind::try_from(input[at])?;
        if input.len() - at < kind.bytes() {
            return Err(BadRecord::Cut);
        }
        let task = input[at + TASK_AT];
        Ok(match kind {
            Kind::Start => Record::Start(task, input[at + NUMBER_AT]),
            Kind::Allocate => Record::Allocate(task, u16::load(input, at + NUMBER_AT)),
            Kind::Free => Record::Free(task, u16::load(input, at + NUMBER_AT)),
            Kind::Step => Record::Step(task),
            Kind::Run => Record::Run(task, u16::load(input, at + NUMBER_AT)),
            Kind::Leave => Record::Leave(task),
        })
    }

    pub fn kind(self) -> Kind
        ensures { result ≡ kind_in self }
    {
        match self {
            Record::Start(_, _) => Kind::Start,
            Record::Allocate(_, _) => Kind::Allocate,
            Record::Free(_, _) => Kind::Free,
            Record::Step(_) => Kind::Step,
            Record::Run(_, _) => Kind::Run,
            Record::Leave(_) => Kind::Leave,
        }
    }
}

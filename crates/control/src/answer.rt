// What a call answers.
ghost use Rattle.std.specs.Prelude.{◌≡◌, ◌*◌};
ghost use Rattle.control.specs.Layout.{seen, TaskLost};
ghost use Rattle.control.specs.Answers.{answer_of, number_of, number_with, ONE_LOST};

use crate::column::Control;
use crate::layout;
use limits::index::Task;
use limits::refusal::Refusal;

// Every code is below this number.
pub const CODES: u64 = 256;

// Every value is below this number.
pub const VALUES: u64 = 16_777_216;

// One lost exchange, in the number that a step answers.
pub const ONE_LOST: u64 = CODES * VALUES;

// What a call that is not refused answers.
#[derive(Clone, Copy, Debug, PartialEq, Eq)]
pub enum Answer {
    // Accepted, or still under way.
    Accepted,
    // An allocation finished with the block or strip at this unit.
    Allocated(u16),
    // A free finished, or leaving.
    Freed,
    // The request ended: no descriptor.
    NoDescriptor,
    // The request ended: no region.
    NoRegion,
    // The request ended: no aligned stretch is free.
    NoStrip,
}

// The outcome as one number for C, without lost exchanges: the code, and CODES times the value.
pub fn number(outcome: Result<Answer, Refusal>) -> u64
    ensures { result ≡ number_of (answer_of outcome) }
{
    match outcome {
        Ok(Answer::Accepted) => 0,
        Ok(Answer::Allocated(unit)) => 20 + CODES * (unit as u64),
        Ok(Answer::Freed) => 20,
        Ok(Answer::NoDescriptor) => 12,
        Ok(Answer::NoRegion) => 13,
        Ok(Answer::NoStrip) => 16,
        Err(refusal) => refusal as u64,
    }
}

// The lost exchanges of a task, as they stand in the number of a step that ends its request. Caller: `step_number`.
fn lost(control: &Control, task: Task) -> u64
    ensures { result ≡ ONE_LOST * seen control.now (TaskLost task) }
{
    ONE_LOST * (layout::TASK_LOSTS.get(control, task) as u64)
}

// The outcome of a step of a task as one number for C: where its request is over, with the lost exchanges.
pub fn step_number(outcome: Result<Answer, Refusal>, control: &Control, task: Task) -> u64
    ensures { result ≡ number_with (answer_of outcome) (seen control.now (TaskLost task)) }
{
    match outcome {
        Ok(Answer::Accepted) => 0,
        Ok(Answer::Allocated(unit)) => 20 + CODES * (unit as u64) + lost(control, task),
        Ok(Answer::Freed) => 20 + lost(control, task),
        Ok(Answer::NoDescriptor) => 12 + lost(control, task),
        Ok(Answer::NoRegion) => 13 + lost(control, task),
        Ok(Answer::NoStrip) => 16 + lost(control, task),
        Err(refusal) => refusal as u64,
    }
}

// Why a call is refused, by the paper's numbers.
ghost use Rattle.limits.specs.declared.refusal.Refusal.TheVariants as refusals;

use crate::index::OutOfRange as NotInRange;

#[derive(Clone, Copy, Debug, PartialEq, Eq)]
pub enum Refusal {
    // The control memory has another length.
    ControlLength = 1,
    // The area, or the strips' memory, has a length that it may not have.
    AreaLength = 2,
    // A start with no task, or with too many.
    TaskCount = 3,
    // The pool is not started.
    NotStarted = 4,
    // The pool has no such task.
    NoTask = 5,
    // The task has a request in hand.
    Busy = 6,
    // The task has no request.
    Idle = 7,
    // A size of 0.
    SizeZero = 8,
    // A size above the largest strip.
    SizeTooLarge = 9,
    // No block or strip begins at the unit.
    NoBlock = 10,
    // The block or strip at the unit is in no user's hands.
    NotInHand = 11,
    // A value that was read is out of its range.
    OutOfRange = 14,
    // A report's row is too short.
    RowTooShort = 23,
}

impl From<NotInRange> for Refusal {
    ghost use Rattle.std.specs.Prelude.{◌≡◌};

    ghost from_gives = { λ _ e. e ≡ refusals.OutOfRange };

    fn from(_outside: NotInRange) -> Refusal {
        Refusal::OutOfRange
    }
}

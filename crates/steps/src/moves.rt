// The steps of the list moves, by place: each pop and each push has three places in a row, from its first.
ghost use Rattle.std.specs.Prelude.{ℕ, ◌≤◌, ◌<◌};
ghost use Rattle.control.specs.Layout.{seen};
ghost use Rattle.control.specs.Places.{POP_PARTIAL, A3_READ};
ghost use Rattle.stepped.specs.Done.{Done};
ghost use Rattle.stepped.specs.Steps.{step_at};
ghost use Rattle.steps.specs.StartsAt.{StartsAt};

use control::answer::Answer;
use control::column::Control;
use control::moves::{Pop, Push};
use control::places;
use control::request::Request;
use limits::refusal::Refusal;
use steps_pops::pops;
use steps_pushes::pushes;

// A list move.
#[derive(Clone, Copy)]
enum Move {
    Pop(Pop),
    Push(Push),
}

// The move whose first place, that of its head read, is this one, if one starts there. Caller: `step`.
fn move_from(place: u8) -> Option<Move>
    ensures { StartsAt result place }
{
    match place {
        places::POP_PARTIAL => Some(Move::Pop(Pop::Partial)),
        places::POP_SPARE => Some(Move::Pop(Pop::Spare)),
        places::POP_REGION => Some(Move::Pop(Pop::Region)),
        places::PUSH_RETIRE => Some(Move::Push(Push::Retire)),
        places::PUSH_BACK => Some(Move::Push(Push::Back)),
        places::PUSH_RELEASE => Some(Move::Push(Push::Release)),
        places::PUSH_OFFER => Some(Move::Push(Push::Offer)),
        _ => None,
    }
}

// The steps at the places of the moves: the head is read, then the item's next is read by a pop or written by a push,
// then the head is exchanged. The matches are not nested, and each arm returns by itself: the back end then makes one
// jump by place of all three, while answers that meet behind nested matches would go through the stack. Caller: the
// step of a task at one of these places.
pub fn step(control: &mut Control, request: Request, place: u8) -> Result<Answer, Refusal>
    requires { (POP_PARTIAL ≤ place) × (place < A3_READ) }
    ensures { (link : ℕ → ℕ)
        → Done (step_at (seen control.old) link request.regions request.task request.class place)
        control.old control.new result }
{
    match move_from(place) {
        Some(Move::Pop(pop)) => return pops::read(control, request, pop),
        Some(Move::Push(push)) => return pushes::read(control, request, push),
        None => {}
    }
    match move_from(place - places::TO_NEXT) {
        Some(Move::Pop(pop)) => return pops::next(control, request, pop),
        Some(Move::Push(push)) => return pushes::next(control, request, push),
        None => {}
    }
    match move_from(place - places::TO_EXCHANGE) {
        Some(Move::Pop(pop)) => return pops::exchange(control, request, pop),
        Some(Move::Push(push)) => return pushes::exchange(control, request, push),
        // This is not reached: each of these places is one of the three of a move.
        None => return Err(Refusal::OutOfRange),
    }
}

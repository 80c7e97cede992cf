// The steps at the last places: those of strips, and the last of leaving.
ghost use Rattle.std.specs.Prelude.{ℕ, ◌≤◌};
ghost use Rattle.control.specs.Layout.{seen};
ghost use Rattle.control.specs.Places.{STRIP_TAKE};
ghost use Rattle.stepped.specs.Done.{Done};
ghost use Rattle.stepped.specs.Steps.{step_at};

use control::answer::Answer;
use control::column::Control;
use control::places;
use control::request::Request;
use limits::refusal::Refusal;
use steps_leave::end;
use steps_strips::{give, take};

// The steps at the two places of strips and at the last of leaving; a place past them is outside its range. Caller: the
// step of a task at such a place.
pub fn step(control: &mut Control, request: Request, place: u8) -> Result<Answer, Refusal>
    requires { STRIP_TAKE ≤ place }
    ensures { (link : ℕ → ℕ)
        → Done (step_at (seen control.old) link request.regions request.task request.class place)
        control.old control.new result }
{
    let Request { task, class, .. } = request;
    if place == places::STRIP_TAKE {
        return take::take(control, task, class);
    }
    if place == places::STRIP_GIVE {
        return give::give(control, task);
    }
    if place == places::LEAVE_END {
        return Ok(end::finish(control, task));
    }
    Err(Refusal::OutOfRange)
}

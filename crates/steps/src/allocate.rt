// The steps of an allocation that are no list moves, but for the first, by place.
ghost use Rattle.std.specs.Prelude.{◌≤◌, ◌<◌};
ghost use Rattle.links.specs.Link.{link};
ghost use Rattle.control.specs.Layout.{seen};
ghost use Rattle.control.specs.Places.{A3_READ, F1};
ghost use Rattle.stepped.specs.Done.{AreaOf, DoneIn};
ghost use Rattle.stepped.specs.Steps.{step_at};

use control::answer::Answer;
use control::column::Control;
use control::places;
use control::request::Request;
use limits::refusal::Refusal;
use steps_allocate::anchor;
use steps_fill::{chain, region};

// The steps at the places from the read of an anchor to the carving of a region. Caller: the step of a task at one of
// them.
pub fn fill(
    control: &mut Control,
    area: &mut [u8],
    request: Request,
    place: u8,
) -> Result<Answer, Refusal>
    requires { AreaOf request.regions area.old × (A3_READ ≤ place) × (place < F1) }
    ensures { DoneIn (step_at (seen control.old) (link area.old) request.regions request.task request.class place)
        control.old area.old control.new area.new result }
{
    if place == places::A8 {
        return region::carve(control, area, request);
    }
    if place == places::A4 {
        return chain::step(control, area, request);
    }
    if place == places::A3_READ {
        return anchor::read(control, request);
    }
    if place == places::A3_EXCHANGE {
        return anchor::exchange(control, request);
    }
    region::open(control, request)
}

// The steps of a free that are no list moves, but for the first, by place. They are those of leaving, too.
ghost use Rattle.std.specs.Prelude.{◌≤◌, ◌<◌};
ghost use Rattle.links.specs.Link.{link};
ghost use Rattle.control.specs.Layout.{seen};
ghost use Rattle.control.specs.Places.{F2, STRIP_TAKE};
ghost use Rattle.stepped.specs.Done.{AreaOf, DoneIn};
ghost use Rattle.stepped.specs.Steps.{step_at};

use control::answer::Answer;
use control::column::Control;
use control::places;
use control::request::Request;
use limits::refusal::Refusal;
use steps_group::group;
use steps_return::{anchor, exchange, map};

// The steps at the places from the taking of a group to the clearing of its map entry. Caller: the step of a task at
// one of them.
pub fn empty(
    control: &mut Control,
    area: &mut [u8],
    request: Request,
    place: u8,
) -> Result<Answer, Refusal>
    requires { AreaOf request.regions area.old × (F2 ≤ place) × (place < STRIP_TAKE) }
    ensures { DoneIn (step_at (seen control.old) (link area.old) request.regions request.task request.class place)
        control.old area.old control.new area.new result }
{
    if place == places::F2 {
        return group::take(control, area, request);
    }
    if place == places::F3_READ {
        return anchor::read(control, request);
    }
    if place == places::F3_LINK {
        return anchor::write_last(control, area, request);
    }
    if place == places::F3_EXCHANGE {
        return exchange::exchange(control, request);
    }
    map::clear(control, request)
}

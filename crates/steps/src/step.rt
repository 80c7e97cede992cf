// The step that a task's place tells.
ghost use Rattle.std.specs.Prelude.{◌≢◌, ◌≤◌};
ghost use Rattle.links.specs.Link.{link};
ghost use Rattle.control.specs.Layout.{seen};
ghost use Rattle.control.specs.Places.{A1, POP_PARTIAL, F1};
ghost use Rattle.stepped.specs.Done.{AreaOf, DoneIn, NumberIn};
ghost use Rattle.stepped.specs.Steps.{step_at, step_of};

use crate::{allocate, free, last, moves};
use control::answer::Answer;
use control::column::Control;
use control::request::Request;
use control::{answer, layout, places};
use limits::index::{Class, RegionCount, Task};
use limits::refusal::Refusal;

// The step at a place that is not the first of a request. Caller: `at`.
fn later(
    control: &mut Control,
    area: &mut [u8],
    request: Request,
    place: u8,
) -> Result<Answer, Refusal>
    requires { AreaOf request.regions area.old × (POP_PARTIAL ≤ place) × (place ≢ F1) }
    ensures { DoneIn (step_at (seen control.old) (link area.old) request.regions request.task request.class place)
        control.old area.old control.new area.new result }
{
    if place < places::A3_READ {
        return moves::step(control, request, place);
    }
    if place < places::F1 {
        return allocate::fill(control, area, request, place);
    }
    if place < places::STRIP_TAKE {
        return free::empty(control, area, request, place);
    }
    last::step(control, request, place)
}

// The step at a place. The first step of an allocation and of a free is asked for first, since most calls are that, and
// its answer is turned into the number there, where only a few answers can be. Caller: `step`.
fn at(control: &mut Control, area: &mut [u8], request: Request, place: u8) -> u64
    requires { AreaOf request.regions area.old × (A1 ≤ place) }
    ensures { NumberIn (step_at (seen control.old) (link area.old) request.regions request.task request.class place)
        request.task control.old area.old control.new area.new result }
{
    let Request { task, .. } = request;
    if place == places::A1 {
        let taken = steps_allocate::cache::take(control, area, request);
        return answer::step_number(taken, control, task);
    }
    if place == places::F1 {
        let put = steps_group::cache::put(control, area, request);
        return answer::step_number(put, control, task);
    }
    let done = later(control, area, request, place);
    answer::step_number(done, control, task)
}

// One step of a task, if it has a request in hand. Caller: the exported call, after the tests.
pub fn step(control: &mut Control, area: &mut [u8], regions: RegionCount, task: Task) -> u64
    requires { AreaOf regions area.old }
    ensures { NumberIn (step_of (seen control.old) (link area.old) regions task) task
        control.old area.old control.new area.new result }
{
    let place = layout::TASK_PLACES.get(control, task);
    if place == places::IDLE {
        return Refusal::Idle as u64;
    }
    // The test stands on the path, and not in a Result, so that the compiler knows the range behind it.
    let noted = layout::TASK_CLASSES.get(control, task) as usize;
    if limits::CLASSES <= noted {
        return Refusal::OutOfRange as u64;
    }
    let request = Request {
        regions,
        task,
        class: Class::new(noted),
    };
    at(control, area, request, place)
}

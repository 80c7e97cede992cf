// Step 1: the block goes on the cache, unless the cache is full.
ghost use Rattle.std.specs.Prelude.{◌≡◌, [], ◌∷◌};
ghost use Rattle.fields.specs.Columns.{◌:=◌};
ghost use Rattle.links.specs.Link.{link};
ghost use Rattle.control.specs.Layout.{seen, changed, CacheTop, CacheCount};
ghost use Rattle.stepped.specs.Done.{AreaOf, DoneIn};
ghost use Rattle.stepped.specs.Free.{f1};

use crate::group;
use control::answer::Answer;
use control::column::Control;
use control::request::Request;
use control::{layout, places};
use limits::index::{Class, Task, in_range};
use limits::refusal::Refusal;

// A cache's top and count. Callers: `put`, and the steps that take a block into a group.
pub fn set(control: &mut Control, task: Task, class: Class, top: u16, count: u16)
    ensures { control.new ≡ changed (CacheTop task class := top ∷ CacheCount task class := count ∷ []) control.old }
{
    layout::CACHE_TOPS.set_of(control, task, class, top);
    layout::CACHE_COUNTS.set_of(control, task, class, count);
}

// Step 1. Caller: the step of a task at F1.
#[tactic(auto, unfolding(stepped::specs::Free::f1, stepped::specs::Free::f1_put))]
pub fn put(control: &mut Control, area: &mut [u8], request: Request) -> Result<Answer, Refusal>
    requires { AreaOf request.regions area.old }
    ensures { DoneIn (f1 (seen control.old) (link area.old) request.regions request.task request.class)
        control.old area.old control.new area.new result }
{
    let Request { task, class, .. } = request;
    let n = classes::table::per_region(class);
    let count = layout::CACHE_COUNTS.get_of(control, task, class);
    in_range(count as usize <= n)?;
    if n <= (count as usize) {
        group::begin(control, task);
        return Ok(Answer::Accepted);
    }
    let unit = layout::TASK_UNITS.get(control, task);
    in_range(ranges::has_block(request.regions, class, unit as usize))?;
    let top = layout::CACHE_TOPS.get_of(control, task, class);
    in_range(ranges::has_top(request.regions, class, count as usize, top as usize))?;
    links::write(area, unit as usize, top as u32);
    layout::TASK_PLACES.set(control, task, places::IDLE);
    set(control, task, class, unit, count + 1);
    Ok(Answer::Freed)
}

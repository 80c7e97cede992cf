// Step 2: the cache is taken, a group of blocks of one region at a time.
ghost use Rattle.std.specs.Prelude.{◌≡◌, [], ◌∷◌, ◌*◌, ◌≤◌, ◌<◌};
ghost use Rattle.limits.specs.Limits.{REGION_UNITS};
ghost use Rattle.fields.specs.Columns.{◌:=◌};
ghost use Rattle.links.specs.Link.{link};
ghost use Rattle.control.specs.Layout.{seen, changed, GroupCount, TaskPlace};
ghost use Rattle.control.specs.Places.{F2};
ghost use Rattle.stepped.specs.Done.{AreaOf, Done, DoneIn};
ghost use Rattle.stepped.specs.Free.{f2, f2_first, f2_more};

use crate::cache;
use classes::geometry;
use control::answer::Answer;
use control::column::Control;
use control::request::Request;
use control::{layout, places};
use limits::index::{Region, Task, in_range};
use limits::refusal::Refusal;

// A new group is due: step 2, with none taken. Callers: step 1 with a full cache, and a won exchange that goes on to 2.
pub fn begin(control: &mut Control, task: Task)
    ensures { control.new ≡ changed (TaskPlace task := F2 ∷ GroupCount task := 0 ∷ []) control.old }
{
    layout::TASK_PLACES.set(control, task, places::F2);
    layout::GROUP_COUNTS.set(control, task, 0);
}

// The first block of a group: the top of a cache of `count` blocks. Caller: `take`, which has found it a block of the
// area. It is put in line, since a Result that a call hands back lies in memory; so is `take_more`.
#[tactic(auto, unfolding(stepped::specs::Free::f2_first))]
#[inline(always)]
fn take_first(
    control: &mut Control,
    area: &[u8],
    request: Request,
    count: u16,
    unit: u16,
) -> Result<Answer, Refusal>
    requires { AreaOf request.regions area.now × (1 ≤ count) × (unit < REGION_UNITS * request.regions) }
    ensures { Done
        (f2_first (seen control.old) (link area.now) request.regions request.task request.class count unit)
        control.old control.new result }
{
    let Request { task, class, .. } = request;
    let left = count - 1;
    let below = links::read(area, unit as usize);
    in_range(ranges::has_top(request.regions, class, left as usize, below as usize))?;
    let region = geometry::region_of(unit as usize) as u8;
    let index = geometry::index_of(class, unit as usize) as u16;
    layout::TASK_REGIONS.set(control, task, region);
    layout::GROUP_FIRSTS.set(control, task, index);
    layout::GROUP_LASTS.set(control, task, index);
    layout::GROUP_COUNTS.set(control, task, 1);
    cache::set(control, task, class, below as u16, left);
    Ok(Answer::Accepted)
}

// A further block of a group of `group` blocks of the region: the top of a cache of `count` blocks, linked behind the
// last. Caller: `take`, which has found it a block of the area and of the region.
#[tactic(auto, unfolding(stepped::specs::Free::f2_more))]
#[inline(always)]
fn take_more(
    control: &mut Control,
    area: &mut [u8],
    request: Request,
    count: u16,
    unit: u16,
    group: u16,
    region: Region,
) -> Result<Answer, Refusal>
    requires { AreaOf request.regions area.old × (1 ≤ count) × (unit < REGION_UNITS * request.regions)
        × (region < request.regions) }
    ensures { DoneIn
        (f2_more (seen control.old) (link area.old) request.regions request.task request.class
        count unit group region)
        control.old area.old control.new area.new result }
{
    let Request { task, class, .. } = request;
    let n = classes::table::per_region(class);
    in_range((group as usize) < n)?;
    let last = layout::GROUP_LASTS.get(control, task) as usize;
    in_range(last < n)?;
    let left = count - 1;
    let below = links::read(area, unit as usize);
    in_range(ranges::has_top(request.regions, class, left as usize, below as usize))?;
    let index = geometry::index_of(class, unit as usize) as u16;
    let end = geometry::first_unit(region, class, last);
    links::write(area, end, index as u32);
    layout::GROUP_LASTS.set(control, task, index);
    layout::GROUP_COUNTS.set(control, task, group + 1);
    cache::set(control, task, class, below as u16, left);
    Ok(Answer::Accepted)
}

// Step 2: the cache's top is taken into the group, or the group is closed. Caller: the step of a task at F2.
#[tactic(auto, unfolding(stepped::specs::Free::f2, stepped::specs::Free::f2_top))]
pub fn take(control: &mut Control, area: &mut [u8], request: Request) -> Result<Answer, Refusal>
    requires { AreaOf request.regions area.old }
    ensures { DoneIn (f2 (seen control.old) (link area.old) request.regions request.task request.class)
        control.old area.old control.new area.new result }
{
    let Request { task, class, .. } = request;
    let n = classes::table::per_region(class);
    let count = layout::CACHE_COUNTS.get_of(control, task, class);
    in_range(count as usize <= n)?;
    let group = layout::GROUP_COUNTS.get(control, task);
    in_range(group as usize <= n)?;
    if count == 0 {
        layout::TASK_PLACES.set(control, task, places::F3_READ);
        return Ok(Answer::Accepted);
    }
    let unit = layout::CACHE_TOPS.get_of(control, task, class);
    in_range(ranges::has_block(request.regions, class, unit as usize))?;
    if group == 0 {
        return take_first(control, area, request, count, unit);
    }
    let noted = layout::TASK_REGIONS.get(control, task) as usize;
    let region = request.regions.region(noted)?;
    if geometry::region_of(unit as usize) != region.get() {
        layout::TASK_PLACES.set(control, task, places::F3_READ);
        return Ok(Answer::Accepted);
    }
    take_more(control, area, request, count, unit, group, region)
}

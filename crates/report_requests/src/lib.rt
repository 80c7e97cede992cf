// "with running requests": what a task has under way beside its caches, by its place. Each value is tested by its range
// at that place. Nothing here writes memory.
#![tactic(auto)]

pub mod one_region;

ghost use Rattle.std.specs.Prelude.{◌≡◌, ◌+◌, get_or, is_ok};
ghost use Rattle.control.specs.Layout.{seen};
ghost use Rattle.reports.specs.ByRegion.{Counted, CanGrow};
ghost use Rattle.report_requests.specs.UnderWay.{count_at, least_at, is_return, is_freeing, is_without};
ghost use Rattle.report_requests.specs.UnderWay.{with_own, in_area, request_blocks_at, request_blocks, in_request};
ghost use Rattle.report_requests.specs.UnderWay.{requests_in_range, blocks_in_requests};

use classes::{geometry, table};
use control::column::Control;
use control::{layout, places};
use limits::REGIONS;
use limits::index::{Class, OutOfRange, RegionCount, Task, in_range};

// How many blocks of a class and region a request has under way, and the unit of the block that it frees, if there is
// one: the unit 8,192 is that of no block.
#[derive(Clone, Copy)]
pub struct RequestBlocks {
    pub class: Class,
    pub region: u8,
    pub blocks: u16,
    pub own: Option<u16>,
}

// A task's request of a class, in an area of so many regions.
#[derive(Clone, Copy)]
struct Request {
    regions: usize,
    task: Task,
    class: Class,
}

// The last place of the pushes of a return.
const LAST_PUSH: u8 = places::PUSH_OFFER + places::TO_EXCHANGE;

// How many blocks of the task's region are under way at the place, of a class with `n`: what is left of a taken chain,
// those still to be carved, or the group. Caller: `at`.
#[tactic(auto, unfolding(crate::specs::UnderWay::count_at))]
fn blocks(control: &Control, task: Task, n: u16, place: u8) -> u16
    ensures { result ≡ count_at (seen control.now) task n place }
{
    match place {
        places::A4 => layout::TASK_LEFTS.get(control, task),
        places::A8 => n.saturating_sub(layout::TASK_INDEXES.get(control, task)),
        places::F2..=places::F3_EXCHANGE => layout::GROUP_COUNTS.get(control, task),
        _ => 0,
    }
}

// How many such blocks are due at the place at least. Caller: `at`.
#[tactic(auto, unfolding(crate::specs::UnderWay::least_at))]
fn least(place: u8) -> u16
    ensures { result ≡ least_at place }
{
    match place {
        places::A4 | places::A8 | places::F3_READ..=places::F3_EXCHANGE => 1,
        _ => 0,
    }
}

// Whether the place is one of free's steps 2 to 5, which leaving has, too. Caller: `is_freeing`.
#[tactic(auto, unfolding(crate::specs::UnderWay::is_return))]
fn is_return(place: u8) -> bool
    ensures { result ≡ is_return place }
{
    matches!(place, places::PUSH_RELEASE..=LAST_PUSH | places::F2..=places::F4_CLEAR)
}

// Whether the request has a block of its own at the place: the one that it frees. Caller: `with_own`.
#[tactic(auto, unfolding(crate::specs::UnderWay::is_freeing))]
fn is_freeing(control: &Control, task: Task, place: u8) -> bool
    ensures { result ≡ is_freeing (seen control.now) task place }
{
    place == places::F1
        || (is_return(place) && layout::TASK_UNITS.get(control, task) != layout::LEAVING)
}

// So many blocks of the region, and the block that is freed, if there is one. Caller: `in_area`.
#[tactic(auto, unfolding(crate::specs::UnderWay::with_own))]
fn with_own(
    control: &Control,
    request: Request,
    place: u8,
    region: u8,
    blocks: u16,
) -> Result<RequestBlocks, OutOfRange>
    ensures { result
        ≡ with_own (seen control.now) request.regions request.task place request.class region blocks }
{
    let found = RequestBlocks {
        class: request.class,
        region,
        blocks,
        own: None,
    };
    if !is_freeing(control, request.task, place) {
        return Ok(found);
    }
    let unit = layout::TASK_UNITS.get(control, request.task);
    in_range(ranges::is_block(request.regions, request.class, unit as usize))?;
    Ok(RequestBlocks {
        own: Some(unit),
        ..found
    })
}

// So many blocks at the place: their region is one of the area's. Caller: `at`.
#[tactic(auto, unfolding(crate::specs::UnderWay::in_area))]
fn in_area(
    control: &Control,
    request: Request,
    place: u8,
    blocks: u16,
) -> Result<RequestBlocks, OutOfRange>
    ensures { result ≡ in_area (seen control.now) request.regions request.task request.class place blocks }
{
    if blocks == 0 {
        return with_own(control, request, place, 0, 0);
    }
    let region = layout::TASK_REGIONS.get(control, request.task);
    in_range((region as usize) < request.regions)?;
    with_own(control, request, place, region, blocks)
}

// What a request has under way at the place. Caller: `of_task`.
#[tactic(auto, unfolding(crate::specs::UnderWay::request_blocks_at))]
fn at(control: &Control, request: Request, place: u8) -> Result<RequestBlocks, OutOfRange>
    ensures { result ≡ request_blocks_at (seen control.now) request.regions request.task request.class place }
{
    let n = table::per_region(request.class) as u16;
    let count = blocks(control, request.task, n, place);
    in_range(least(place) <= count)?;
    in_range(count <= n)?;
    in_area(control, request, place, count)
}

// Whether a task at the place has no small block under way, of whatever class: it is idle, or has a strip's request, or
// is at the last step of leaving. Caller: `of_task`.
#[tactic(auto, unfolding(crate::specs::UnderWay::is_without))]
fn is_without(place: u8) -> bool
    ensures { result ≡ is_without place }
{
    matches!(place, places::IDLE | places::STRIP_TAKE..=places::LEAVE_END)
}

// What a task's request has under way. Callers: the reports.
#[tactic(auto, unfolding(crate::specs::UnderWay::request_blocks))]
pub fn of_task(control: &Control, regions: usize, task: Task) -> Result<RequestBlocks, OutOfRange>
    ensures { result ≡ request_blocks (seen control.now) regions task }
{
    let place = layout::TASK_PLACES.get(control, task);
    if is_without(place) {
        return Ok(RequestBlocks {
            class: Class::new(0),
            region: 0,
            blocks: 0,
            own: None,
        });
    }
    in_range(place < places::PLACES)?;
    let class = Class::of(layout::TASK_CLASSES.get(control, task) as usize)?;
    at(
        control,
        Request {
            regions,
            task,
            class,
        },
        place,
    )
}

// The blocks of a task's request that are of the class, added to the counts of the regions. Callers have counts that
// can grow: `of_class`, and the reports that tell the tasks apart.
pub fn with_request(
    control: &Control,
    regions: RegionCount,
    task: Task,
    class: Class,
    from: [u16; REGIONS],
) -> Result<[u16; REGIONS], OutOfRange>
    requires { CanGrow from }
    ensures { Counted (is_ok (request_blocks (seen control.now) regions task))
        (λ z. get_or from z 0 + in_request class z (request_blocks (seen control.now) regions task)) result }
{
    let request = of_task(control, regions.get(), task)?;
    let mut counts = from;
    if class.get() != request.class.get() {
        return Ok(counts);
    }
    counts[request.region as usize] += request.blocks;
    if let Some(unit) = request.own {
        counts[geometry::region_of(unit as usize)] += 1;
    }
    Ok(counts)
}

// The blocks of the class that all tasks' requests have under way. Callers: the reports.
pub fn of_class(
    control: &Control,
    regions: RegionCount,
    class: Class,
) -> Result<[u16; REGIONS], OutOfRange>
    ensures { Counted (requests_in_range (seen control.now) regions)
        (blocks_in_requests (seen control.now) regions class) result }
{
    let mut counts = [0u16; REGIONS];
    for task in 0..limits::TASKS {
        counts = with_request(control, regions, Task::new(task), class, counts)?;
    }
    Ok(counts)
}

// What a task's request has of one region: blocks of it, or the region itself. Nothing here writes memory.
ghost use Rattle.std.specs.Prelude.{◌≡◌, true, false, leb, Ok, OnOk, OnErr};
ghost use Rattle.rows.specs.Weights.{when};
ghost use Rattle.control.specs.Layout.{seen};
ghost use Rattle.report_requests.specs.UnderWay.{own_in, in_request};
ghost use Rattle.report_requests.specs.OneRegion.{has_blocks, is_with_region, has_region};
ghost use Rattle.report_requests.specs.OneRegion.{held_region_fits, held_regions_in_range};

use crate::{RequestBlocks, of_task};
use classes::geometry;
use control::column::Control;
use control::{layout, places};
use limits::index::{OutOfRange, Task, in_range};

// The last place of the push of a region.
const LAST_PUSH: u8 = places::PUSH_RELEASE + places::TO_EXCHANGE;

// The unit of no block: what stands at the bottom of a cache.
const NONE: u16 = limits::UNITS as u16;

// Whether there are blocks, and they are of the region. Caller: `are_there`.
fn has_row(of: usize, blocks: u16, region: usize) -> bool
    ensures { result ≡ leb 1 (when region of blocks) }
{
    of == region && 0 < blocks
}

// Whether there is a block that is freed, and it is of the region. In an area of more than sixteen regions the unit of
// no block passes the test of the range. Caller: `are_there`.
fn has_own(own: Option<u16>, region: usize) -> bool
    ensures { result ≡ leb 1 (own_in region own) }
{
    match own {
        Some(unit) => unit != NONE && geometry::region_of(unit as usize) == region,
        None => false,
    }
}

// Whether some of the blocks that were found are of the class and the region. Caller: `has_blocks`.
fn are_there(found: RequestBlocks, class: usize, region: usize) -> bool
    ensures { result ≡ leb 1 (in_request class region (Ok found)) }
{
    class == found.class.get()
        && (has_row(found.region as usize, found.blocks, region) || has_own(found.own, region))
}

// Whether a task's request has blocks of the class and the region under way. Callers: the keepers.
#[tactic(auto, unfolding(crate::specs::OneRegion::has_blocks, crate::specs::UnderWay::in_request))]
pub fn has_blocks(
    control: &Control,
    regions: usize,
    class: usize,
    region: usize,
    task: Task,
) -> bool
    ensures { result ≡ has_blocks (seen control.now) regions class region task }
{
    match of_task(control, regions, task) {
        Ok(found) => are_there(found, class, region),
        Err(_) => false,
    }
}

// Whether a task at the place has a region itself: it has popped the region and not opened it yet, or emptied it and
// not pushed it on the list of spare regions yet. Callers: `has_region` and `region_fits`.
#[tactic(auto, unfolding(crate::specs::OneRegion::is_with_region))]
fn is_with_region(place: u8) -> bool
    ensures { result ≡ is_with_region place }
{
    matches!(
        place,
        places::A7 | places::F4_CLEAR | places::PUSH_RELEASE..=LAST_PUSH
    )
}

// Whether a task has the region itself. Callers: the keepers.
#[tactic(auto, unfolding(crate::specs::OneRegion::has_region))]
pub fn has_region(control: &Control, region: usize, task: Task) -> bool
    ensures { result ≡ has_region (seen control.now) region task }
{
    is_with_region(layout::TASK_PLACES.get(control, task))
        && layout::TASK_REGIONS.get(control, task) as usize == region
}

// Whether the region that a task has itself, if it has one, is one of the area's. Caller: `fits`.
#[tactic(auto, unfolding(crate::specs::OneRegion::held_region_fits))]
fn region_fits(control: &Control, regions: usize, task: Task) -> bool
    ensures { result ≡ held_region_fits (seen control.now) regions task }
{
    !is_with_region(layout::TASK_PLACES.get(control, task))
        || (layout::TASK_REGIONS.get(control, task) as usize) < regions
}

// Whether the regions that tasks have themselves are the area's. Callers: the keepers.
pub fn fits(control: &Control, regions: usize) -> Result<(), OutOfRange>
    ensures passed { OnOk result (held_regions_in_range (seen control.now) regions ≡ true) }
    ensures failed { OnErr result (held_regions_in_range (seen control.now) regions ≡ false) }
{
    for task in 0..limits::TASKS {
        in_range(region_fits(control, regions, Task::new(task)))?;
    }
    Ok(())
}

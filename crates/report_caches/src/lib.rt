// The blocks of the tasks' caches, counted by region; each count, top and link is tested by its range. And the lowest
// block of a region in a cache that has passed these tests. Nothing here writes memory.
#![tactic(auto)]

ghost use Rattle.std.specs.Prelude.{◌≡◌, true, ◌+◌, ◌≤◌, ◌<◌, get_or, IfSome, IfNone};
ghost use Rattle.limits.specs.Limits.{UNITS};
ghost use Rattle.classes.specs.Classes.{per_region};
ghost use Rattle.links.specs.Link.{link};
ghost use Rattle.control.specs.Layout.{seen};
ghost use Rattle.stepped.specs.Done.{AreaOf};
ghost use Rattle.reports.specs.ByRegion.{in_region, Counted, CanGrow};
ghost use Rattle.report_caches.specs.CacheRows.{is_cache_row, row_from, cache_row, is_cache, caches_in_range};
ghost use Rattle.report_caches.specs.CacheRows.{blocks_in_caches, lower_of, lowest_cached};

use classes::{geometry, table};
use control::column::Control;
use control::layout;
use limits::REGIONS;
use limits::index::{Class, OutOfRange, RegionCount, Task, in_range};

// The blocks of a cache of `count` blocks from its top down, each counted in its region. Caller: `cache`, which has
// found the count at most n.
fn walk(
    area: &[u8],
    regions: RegionCount,
    class: Class,
    top: usize,
    count: usize,
    from: [u16; REGIONS],
) -> Result<[u16; REGIONS], OutOfRange>
    requires { AreaOf regions area.now × (count ≤ per_region class) × CanGrow from }
    ensures { Counted (is_cache_row (link area.now) regions class count top)
        (λ z. get_or from z 0 + in_region z (row_from (link area.now) top count)) result }
{
    let mut unit = top;
    let mut counts = from;
    for _ in 0..count {
        in_range(ranges::is_block(regions.get(), class, unit))?;
        counts[geometry::region_of(unit)] += 1;
        unit = links::read(area, unit) as usize;
    }
    in_range(unit == limits::UNITS)?;
    Ok(counts)
}

// The blocks of a task's cache of a class, added to the counts of the regions. Callers have counts that can grow:
// `of_class`, and the reports that tell the tasks apart.
pub fn cache(
    control: &Control,
    area: &[u8],
    regions: RegionCount,
    task: Task,
    class: Class,
    from: [u16; REGIONS],
) -> Result<[u16; REGIONS], OutOfRange>
    requires { AreaOf regions area.now × CanGrow from }
    ensures { Counted (is_cache (seen control.now) (link area.now) regions task class)
        (λ z. get_or from z 0 + in_region z (cache_row (seen control.now) (link area.now) task class)) result }
{
    let count = layout::CACHE_COUNTS.get_of(control, task, class) as usize;
    in_range(count <= table::per_region(class))?;
    let top = layout::CACHE_TOPS.get_of(control, task, class) as usize;
    walk(area, regions, class, top, count, from)
}

// The blocks of all tasks' caches of a class, also of tasks that are not started, whose caches are empty after a start.
// Callers: the reports.
pub fn of_class(
    control: &Control,
    area: &[u8],
    regions: RegionCount,
    class: Class,
) -> Result<[u16; REGIONS], OutOfRange>
    requires { AreaOf regions area.now }
    ensures { Counted (caches_in_range (seen control.now) (link area.now) regions class)
        (blocks_in_caches (seen control.now) (link area.now) class) result }
{
    let mut counts = [0u16; REGIONS];
    for task in 0..limits::TASKS {
        counts = cache(control, area, regions, Task::new(task), class, counts)?;
    }
    Ok(counts)
}

// The block at `unit`, where it lies in the region and below `low`; else `low`. Caller: `lowest`.
fn lower(unit: usize, region: usize, low: usize) -> usize
    ensures { result ≡ lower_of region unit low }
{
    if geometry::region_of(unit) != region {
        return low;
    }
    if unit < low {
        return unit;
    }
    low
}

// The lowest block of a region in a task's cache of a class, by its unit, if it has one there. Callers have found the
// cache in its range: the keepers.
pub fn lowest(
    control: &Control,
    area: &[u8],
    regions: RegionCount,
    task: Task,
    class: Class,
    region: usize,
) -> Option<u16>
    requires { AreaOf regions area.now × (is_cache (seen control.now) (link area.now) regions task class ≡ true) }
    ensures found { IfSome result (λ unit. unit ≡ lowest_cached (seen control.now) (link area.now) task class region) }
    ensures below { IfSome result (λ unit. unit < UNITS) }
    ensures none { IfNone result (lowest_cached (seen control.now) (link area.now) task class region ≡ UNITS) }
{
    let mut unit = layout::CACHE_TOPS.get_of(control, task, class) as usize;
    let mut low = limits::UNITS;
    for _ in 0..layout::CACHE_COUNTS.get_of(control, task, class) {
        low = lower(unit, region, low);
        unit = links::read(area, unit) as usize;
    }
    if low < limits::UNITS {
        return Some(low as u16);
    }
    None
}

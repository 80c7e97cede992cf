// The region's keepers: for each region of the area the first that applies of a block in hand, a cached block, a
// running request, and the list of spare regions. All that is read is tested first. The keepers are gathered in an
// array and written last: the last region may have none, and a call that is refused may change no byte of the row.
#![tactic(auto)]

ghost use Rattle.std.specs.Prelude.{◌≡◌, true, false, ◌*◌, length, OnOk, OnErr};
ghost use Rattle.limits.specs.Limits.{REGIONS, CLASSES};
ghost use Rattle.links.specs.Link.{link};
ghost use Rattle.control.specs.Layout.{seen};
ghost use Rattle.stepped.specs.Done.{AreaOf};
ghost use Rattle.reports.specs.Passing.{all_pass};
ghost use Rattle.reports.specs.Rows.{numbers_to};
ghost use Rattle.reports.specs.Reports.{answered, report_number, Answers};
ghost use Rattle.report_caches.specs.CacheRows.{caches_in_range};
ghost use Rattle.report_regions.specs.SpareList.{is_spare_list};
ghost use Rattle.keepers.specs.Keepers.{request_keeper, cache_keeper, hand_keeper, closed_keeper, keeper_of};
ghost use Rattle.keepers.specs.Keepers.{KEEPER_NUMBERS, keeper_number, read_in_range, are_kept};
ghost use Rattle.keepers.specs.Filling.{keeper_told, numbers_told, GivenRead, KeepersFilled};

use control::column::Control;
use limits::index::{Class, OutOfRange, Region, RegionCount, Task};
use limits::refusal::Refusal;
use report_regions::spares;
use report_requests::one_region;
use reports::row;

// The kinds of keepers.
pub const IN_HAND: u16 = 1;

pub const IN_CACHE: u16 = 2;

pub const IN_REQUEST: u16 = 3;

pub const SPARE: u16 = 4;

// A keeper is two numbers: the kind with the task behind it, and the unit.
pub const KEEPER_NUMBERS: usize = 2;

pub const KEEPER_BYTES: usize = 2 * KEEPER_NUMBERS;

// The length that callers are told.
const _: () = prove!(KEEPER_BYTES == 4);

const TASK_WEIGHT: u16 = 256;

// Who keeps a region.
#[derive(Clone, Copy)]
pub enum Keeper {
    // A user, with the block at the unit.
    InHand(u16),
    // The cache of a task, with the block at the unit.
    InCache(Task, u16),
    // The running request of a task.
    InRequest(Task),
    // The list of spare regions.
    Spare,
}

// The two numbers of a keeper. Caller: `fill`.
fn numbers_of(keeper: Keeper) -> [u16; KEEPER_NUMBERS]
    ensures { result ≡ numbers_told keeper }
{
    match keeper {
        Keeper::InHand(unit) => [IN_HAND, unit],
        Keeper::InCache(task, unit) => [IN_CACHE + TASK_WEIGHT * task.get() as u16, unit],
        Keeper::InRequest(task) => [IN_REQUEST + TASK_WEIGHT * task.get() as u16, 0],
        Keeper::Spare => [SPARE, 0],
    }
}

// The lowest task whose request has blocks of the region, which is open in the class; else the list of spare regions,
// if it has the region. Caller: `cache_keeper`.
fn request_keeper(
    control: &Control,
    regions: RegionCount,
    class: Class,
    region: Region,
) -> Option<Keeper>
    requires { is_spare_list (seen control.now) regions ≡ true }
    ensures { keeper_told result ≡ request_keeper (seen control.now) regions region class }
{
    for number in 0..limits::TASKS {
        let task = Task::new(number);
        if one_region::has_blocks(control, regions.get(), class.get(), region.get(), task) {
            return Some(Keeper::InRequest(task));
        }
    }
    if spares::has(control, regions, region.get()) {
        return Some(Keeper::Spare);
    }
    None
}

// The lowest task with a cached block of the region, which is open in the class, and its lowest unit there; else the
// next that applies. Caller: `hand_keeper`.
fn cache_keeper(
    control: &Control,
    area: &[u8],
    regions: RegionCount,
    class: Class,
    region: Region,
) -> Option<Keeper>
    requires { GivenRead control.now area.now regions }
    ensures { keeper_told result ≡ cache_keeper (seen control.now) (link area.now) regions region class }
{
    for number in 0..limits::TASKS {
        let task = Task::new(number);
        if let Some(unit) = report_caches::lowest(
            control,
            area,
            regions,
            task,
            class,
            region.get(),
        ) {
            return Some(Keeper::InCache(task, unit));
        }
    }
    request_keeper(control, regions, class, region)
}

// The lowest block in hand of the region, which is open in the class; else the next that applies. Caller: `keeper_of`.
fn hand_keeper(
    control: &Control,
    area: &[u8],
    regions: RegionCount,
    class: Class,
    region: Region,
) -> Option<Keeper>
    requires { GivenRead control.now area.now regions }
    ensures { keeper_told result ≡ hand_keeper (seen control.now) (link area.now) regions region class }
{
    match report_marks::lowest_in_hand(control, region, class) {
        Some(unit) => Some(Keeper::InHand(unit)),
        None => cache_keeper(control, area, regions, class, region),
    }
}

// The list of spare regions, if it has the region, which is not open; else the lowest task that has the region itself.
// Caller: `keeper_of`.
fn closed_keeper(control: &Control, regions: RegionCount, region: Region) -> Option<Keeper>
    requires { is_spare_list (seen control.now) regions ≡ true }
    ensures { keeper_told result ≡ closed_keeper (seen control.now) regions region }
{
    if spares::has(control, regions, region.get()) {
        return Some(Keeper::Spare);
    }
    for number in 0..limits::TASKS {
        let task = Task::new(number);
        if one_region::has_region(control, region.get(), task) {
            return Some(Keeper::InRequest(task));
        }
    }
    None
}

// The keeper of a region of the area. Caller: `fill`.
fn keeper_of(control: &Control, area: &[u8], regions: RegionCount, region: Region) -> Option<Keeper>
    requires { GivenRead control.now area.now regions }
    ensures { keeper_told result ≡ keeper_of (seen control.now) (link area.now) regions region }
{
    match report_regions::of_region(control, regions, region) {
        Ok(None) => closed_keeper(control, regions, region),
        Ok(Some(open)) => hand_keeper(control, area, regions, open.class, region),
        Err(_) => None,
    }
}

// Goes on where all caches are in their ranges. Caller: `read_fits`.
fn caches_fit(control: &Control, area: &[u8], regions: RegionCount) -> Result<(), OutOfRange>
    requires { AreaOf regions area.now }
    ensures passed { OnOk result
        (all_pass CLASSES (caches_in_range (seen control.now) (link area.now) regions) ≡ true) }
    ensures failed { OnErr result
        (all_pass CLASSES (caches_in_range (seen control.now) (link area.now) regions) ≡ false) }
{
    for class in 0..limits::CLASSES {
        report_caches::of_class(control, area, regions, Class::new(class))?;
    }
    Ok(())
}

// Goes on where all that is read is in its range. Caller: `write`.
fn read_fits(control: &Control, area: &[u8], regions: RegionCount) -> Result<(), OutOfRange>
    requires { AreaOf regions area.now }
    ensures passed { OnOk result (read_in_range (seen control.now) (link area.now) regions ≡ true) }
    ensures failed { OnErr result (read_in_range (seen control.now) (link area.now) regions ≡ false) }
{
    caches_fit(control, area, regions)?;
    report_requests::of_class(control, regions, Class::new(0))?;
    report_regions::of_regions(control, regions)?;
    one_region::fits(control, regions.get())?;
    spares::fits(control, regions)
}

// Puts the keepers into the numbers, region by region; a region that has none is out of its range. Caller: `write`.
fn fill(
    control: &Control,
    area: &[u8],
    regions: RegionCount,
    numbers: &mut [u16],
) -> Result<(), OutOfRange>
    requires { GivenRead control.now area.now regions × (length numbers.old ≡ KEEPER_NUMBERS * REGIONS) }
    ensures { KeepersFilled (seen control.now) (link area.now) regions numbers.new result }
{
    for region in 0..regions.get() {
        let Some(keeper) = keeper_of(control, area, regions, Region::new(region)) else {
            return Err(OutOfRange);
        };
        let two = numbers_of(keeper);
        numbers[KEEPER_NUMBERS * region] = two[0];
        numbers[KEEPER_NUMBERS * region + 1] = two[1];
    }
    Ok(())
}

// The keepers of the memories into the row. The caller is the exported function, which has made the tests 1, 4, 2.
pub fn write(
    control: &Control,
    area: &[u8],
    regions: RegionCount,
    row: &mut [u8],
) -> Result<(), Refusal>
    requires { AreaOf regions area.now }
    ensures { Answers (answered
        (are_kept (seen control.now) (link area.now) regions)
        (numbers_to (KEEPER_NUMBERS * regions)
        (keeper_number (seen control.now) (link area.now) regions))
        row.old) row.new (report_number result) }
{
    read_fits(control, area, regions)?;
    let mut numbers = [0u16; KEEPER_NUMBERS * limits::REGIONS];
    fill(control, area, regions, &mut numbers)?;
    row::write(row, &numbers[..KEEPER_NUMBERS * regions.get()])
}

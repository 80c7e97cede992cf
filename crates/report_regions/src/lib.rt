// Whether a region is open, in which class, and how many blocks its chain has. Each of the first functions makes the
// tests of one read, in the order of the reads: the map entry, the descriptor's region and anchor, its class. Nothing
// here writes memory.
#![tactic(auto)]

pub mod spares;

ghost use Rattle.std.specs.Prelude.{◌≡◌};
ghost use Rattle.control.specs.Layout.{seen};
ghost use Rattle.report_regions.specs.Opened.{opened_in, open_as, open_by, opened_of};
ghost use Rattle.report_regions.specs.OpenClasses.{RegionsRead};

use classes::table;
use control::column::Control;
use control::layout;
use limits::index::{Class, Descriptor, OutOfRange, Region, RegionCount, in_range};
use words::anchor;
use words::anchor::Anchor;

// A region that is open.
#[derive(Clone, Copy)]
pub struct OpenRegion {
    pub class: Class,
    // How many blocks its chain has.
    pub chain: u16,
}

// The class, and the chain of `count` blocks, at most n of them. Caller: `by`, which has found that it is no more than
// any class has.
fn open(
    control: &Control,
    descriptor: Descriptor,
    count: u16,
) -> Result<Option<OpenRegion>, OutOfRange>
    ensures { opened_in result ≡ open_as (seen control.now) descriptor count }
{
    let class = Class::of(layout::DESCRIPTOR_CLASSES.get(control, descriptor) as usize)?;
    in_range(count as usize <= table::per_region(class))?;
    Ok(Some(OpenRegion {
        class,
        chain: count,
    }))
}

// The region is not open where the descriptor does not name it back, or its anchor is EMPTY. Caller: `of_region`.
fn by(
    control: &Control,
    regions: RegionCount,
    region: Region,
    descriptor: Descriptor,
) -> Result<Option<OpenRegion>, OutOfRange>
    ensures { opened_in result ≡ open_by (seen control.now) regions region descriptor }
{
    let named = regions.region(layout::DESCRIPTOR_REGIONS.get(control, descriptor) as usize)?;
    if named.get() != region.get() {
        return Ok(None);
    }
    let word = layout::ANCHORS.get(control, descriptor);
    in_range(ranges::is_anchor(word))?;
    let found = Anchor::of(word);
    if found.state == anchor::EMPTY {
        return Ok(None);
    }
    open(control, descriptor, found.count as u16)
}

// What is read of a region of the area: `None` where it is not open.
pub fn of_region(
    control: &Control,
    regions: RegionCount,
    region: Region,
) -> Result<Option<OpenRegion>, OutOfRange>
    ensures { opened_in result ≡ opened_of (seen control.now) regions region }
{
    match (layout::MAP_ENTRIES.get(control, region) as usize).checked_sub(1) {
        None => Ok(None),
        Some(number) => by(control, regions, region, Descriptor::of(number)?),
    }
}

// What is read of all regions of the area, region by region. Callers have the started regions: the reports.
pub fn of_regions(
    control: &Control,
    regions: RegionCount,
) -> Result<[Option<OpenRegion>; limits::REGIONS], OutOfRange>
    ensures { RegionsRead (seen control.now) regions result }
{
    let mut opened = [None; limits::REGIONS];
    for region in 0..regions.get() {
        opened[region] = of_region(control, regions, Region::new(region))?;
    }
    Ok(opened)
}

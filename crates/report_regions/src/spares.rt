// The list of spare regions. It is tested first, and then asked for a region. Nothing here writes memory.
ghost use Rattle.std.specs.Prelude.{◌≡◌, true, false, OnOk, OnErr};
ghost use Rattle.limits.specs.Limits.{SPARE_REGIONS};
ghost use Rattle.words.specs.Head.{item_of};
ghost use Rattle.control.specs.Layout.{seen, Head as HeadOf};
ghost use Rattle.report_regions.specs.SpareList.{is_spare_list, is_spare};

use control::column::Control;
use control::layout;
use limits::index::{List, OutOfRange, Region, RegionCount, in_range};
use words::head::Head;

// The first item of the list: a region's number plus one, or 0. Callers: the functions below.
fn first(control: &Control) -> usize
    ensures { result ≡ item_of (seen control.now (HeadOf SPARE_REGIONS)) }
{
    let head = Head::of(layout::HEADS.get(control, List::new(limits::SPARE_REGIONS)));
    head.item as usize
}

// Goes on where each item is a region of the area, and the list ends. Callers have the started regions: the keepers.
pub fn fits(control: &Control, regions: RegionCount) -> Result<(), OutOfRange>
    ensures passed { OnOk result (is_spare_list (seen control.now) regions ≡ true) }
    ensures failed { OnErr result (is_spare_list (seen control.now) regions ≡ false) }
{
    let mut item = first(control);
    for _ in 0..regions.get() {
        let Some(number) = item.checked_sub(1) else {
            return Ok(());
        };
        item = layout::REGION_NEXTS.get(control, regions.region(number)?) as usize;
    }
    in_range(item == 0)
}

// Whether the region is on the list. Callers have found the list in its range: the keepers.
pub fn has(control: &Control, regions: RegionCount, region: usize) -> bool
    requires { is_spare_list (seen control.now) regions ≡ true }
    ensures { result ≡ is_spare (seen control.now) regions region }
{
    let mut item = first(control);
    for _ in 0..regions.get() {
        let Some(number) = item.checked_sub(1) else {
            return false;
        };
        if number == region {
            return true;
        }
        item = layout::REGION_NEXTS.get(control, Region::new(number)) as usize;
    }
    false
}

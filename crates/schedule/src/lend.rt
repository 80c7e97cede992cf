// What of the stand's area is lent. A start is lent the regions that it names; every other call the area of the last
// accepted start, none before the first.
ghost use Rattle.std.specs.Prelude.{◌≡◌, ◌*◌, ◌≤◌};
ghost use Rattle.limits.specs.Limits.{REGION_BYTES};
ghost use Rattle.control.specs.Layout.{seen};
ghost use Rattle.schedule.specs.Stand.{STAND_AREA};
ghost use Rattle.schedule.specs.Bytes.{lent_regions};

use control::column::Control;
use control::layout;

// "The stand keeps an area of 16,384 bytes": four regions.
pub const STAND_REGIONS: usize = 4;

pub const STAND_AREA: usize = STAND_REGIONS * limits::REGION_BYTES;

// How many bytes of the area the pool was started with. Callers: the calls that are no start, and reports on the pool.
pub fn lent(control: &Control) -> usize
    ensures { (result ≡ REGION_BYTES * lent_regions (seen control.now)) × (result ≤ STAND_AREA) }
{
    if layout::STARTED_TASKS.get_only(control) == 0 {
        return 0;
    }
    let regions = layout::STARTED_REGIONS.get_only(control) as usize;
    if STAND_REGIONS < regions {
        return STAND_AREA;
    }
    limits::REGION_BYTES * regions
}

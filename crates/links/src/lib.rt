// The link in a free block: its first four bytes, low byte first, in the area.
#![tactic(auto)]

ghost use Rattle.std.specs.Prelude.{◌≡◌, ◌+◌, ◌*◌, ◌≤◌, ◌<◌, length};
ghost use Rattle.limits.specs.Limits.{UNIT_BYTES, REGION_BYTES, REGION_UNITS};
ghost use Rattle.links.specs.Link.{link, with_link};

use fields::Number;
use limits::index::Region;

// The link of the block at `unit`. Callers: the steps that take a cache's top or a chain's next block, which have
// tested that the unit is a block's in the area.
pub fn read(area: &[u8], unit: usize) -> u32
    requires { UNIT_BYTES * unit + UNIT_BYTES ≤ length area.now }
    ensures { result ≡ link area.now unit }
{
    u32::load(area, limits::UNIT_BYTES * unit)
}

// Writes the link of the block at `unit`. Callers: the steps that put a block on a cache or into a group, and the
// one that writes a group's last link, which have tested that the unit is a block's in the area.
pub fn write(area: &mut [u8], unit: usize, to: u32)
    requires { UNIT_BYTES * unit + UNIT_BYTES ≤ length area.old }
    ensures { area.new ≡ with_link area.old unit to }
{
    to.store(area, limits::UNIT_BYTES * unit);
}

// Writes a link in a region's own part of the area, all that a carving step is handed; `unit` counts from the
// region's first. Caller: `write_in_region`.
fn write_in_part(part: &mut [u8], unit: usize, to: u32)
    requires { (length part.old ≡ REGION_BYTES) × (unit < REGION_UNITS) }
    ensures { part.new ≡ with_link part.old unit to }
{
    write(part, unit, to);
}

// Writes a link by lending the region's own part of the area. Caller: the carving step, which has tested that the
// region is one of the area's.
pub fn write_in_region(area: &mut [u8], region: Region, unit: usize, to: u32)
    requires { (REGION_BYTES * region + REGION_BYTES ≤ length area.old) × (unit < REGION_UNITS) }
    ensures { area.new ≡ with_link area.old (REGION_UNITS * region + unit) to }
{
    let start = limits::REGION_BYTES * region.get();
    let end = start + limits::REGION_BYTES;
    write_in_part(&mut area[start..end], unit, to);
}

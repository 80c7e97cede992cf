// Where the blocks of a class lie in a region.
ghost use Rattle.std.specs.Prelude.{◌≡◌, ◌<◌};
ghost use Rattle.classes.specs.Classes.{per_region};
ghost use Rattle.classes.specs.Geometry.{unit_of, region_of, index_of, is_first};

use crate::table;
use limits::index::{Class, Region};

// The first unit of a block. Callers have a region of the area and an index below n of the class: carving,
// which counts the index up to n, and the links of a chain, which are tested first.
#[inline(always)]
pub fn first_unit(region: Region, class: Class, index: usize) -> usize
    requires { index < per_region class }
    ensures { result ≡ unit_of region class index }
{
    limits::REGION_UNITS * region.get() + table::units(class) * index
}

// The region that a unit lies in.
pub fn region_of(unit: usize) -> usize
    ensures { result ≡ region_of unit }
{
    unit / limits::REGION_UNITS
}

// The index in its region of the block that a unit names. Callers have the class of the unit's region: the
// steps that link a block into a group or return a group to its region's chain.
pub fn index_of(class: Class, unit: usize) -> usize
    ensures { result ≡ index_of class unit }
{
    unit % limits::REGION_UNITS / table::units(class)
}

// A factor's product is taken modulo 2^32, and that of a first unit is below 2^16.
const PRODUCT_MODULUS: usize = 4294967296;

const FIRST_PRODUCTS: usize = 65536;

// Whether a unit is the first of a block of the class. Callers have the class of the unit's region, or of the cache:
// the beginning of a free, and the steps that take a block from a cache or put one on it.
pub fn is_first(class: Class, unit: usize) -> bool
    ensures { result ≡ is_first class unit }
{
    unit % limits::REGION_UNITS * table::factor(class) % PRODUCT_MODULUS < FIRST_PRODUCTS
}

// The table of classes. Each row is an array that is read where it stands: a class is one of its indices, so that no
// test of the range and no copy is made at a read.
ghost use Rattle.std.specs.Prelude.{◌≡◌};
ghost use Rattle.classes.specs.Classes.{units, per_region};
ghost use Rattle.classes.specs.Factors.{Factor};

use limits::CLASSES;
use limits::index::Class;

static UNITS: [usize; CLASSES] = [1, 2, 4, 6, 8, 10, 12, 14, 16, 20, 24, 28, 32];

// The units of a block of the class. Callers have the class of a request, which its step has tested: `first_unit`,
// `index_of`, and the steps that name a block by its index.
pub fn units(class: Class) -> usize
    ensures { result ≡ units class }
{
    UNITS[class.get()]
}

static PER_REGION: [usize; CLASSES] = [512, 256, 128, 85, 64, 51, 42, 36, 32, 25, 21, 18, 16];

// How many blocks of the class a region has, n. Callers have the class as those of `units` do: the steps that compare
// an index, or the count of a cache, a group or an anchor, with n.
pub fn per_region(class: Class) -> usize
    ensures { result ≡ per_region class }
{
    PER_REGION[class.get()]
}

static FACTORS: [usize; CLASSES] = [
    128, 2147483776, 1073741953, 3579139543, 536871042, 3006477238, 357914074, 306783512,
    268435588, 1503238690, 178957107, 460175205, 134217864,
];

// A number that tells the first units of the class's blocks by one product, without a division. Any with its property
// would do; docs/DECISIONS.md says how these were found. Caller: `is_first`.
pub fn factor(class: Class) -> usize
    ensures { Factor class result }
{
    FACTORS[class.get()]
}

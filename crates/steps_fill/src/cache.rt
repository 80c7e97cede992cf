// The cache that a step fills.
ghost use Rattle.std.specs.Prelude.{◌≡◌, [], ◌∷◌, ◌+◌, ◌<◌};
ghost use Rattle.limits.specs.Limits.{MOST_BLOCKS};
ghost use Rattle.fields.specs.Columns.{◌:=◌};
ghost use Rattle.control.specs.Layout.{changed, CacheTop, CacheCount};

use control::column::Control;
use control::layout;
use limits::index::{Class, Task};

// Puts the block at `unit` on top of a cache of `count` blocks; the block's link is the caller's to write. Callers: the
// steps that move a chain to the cache and carve a region, which have found the cache with fewer blocks than a region
// has.
pub fn push(control: &mut Control, task: Task, class: Class, unit: u16, count: u16)
    requires { count < MOST_BLOCKS }
    ensures { control.new ≡ changed (CacheTop task class := unit ∷ CacheCount task class := (count + 1) ∷ [])
        control.old }
{
    layout::CACHE_TOPS.set_of(control, task, class, unit);
    layout::CACHE_COUNTS.set_of(control, task, class, count + 1);
}

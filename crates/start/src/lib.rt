// What a start leaves in the control memory, every byte of it. Only a start loops.
#![tactic(auto)]

ghost use Rattle.std.specs.Prelude.{◌≡◌, ◌<◌, ◌≤◌, ℕ};
ghost use Rattle.limits.specs.Limits.{DESCRIPTORS};
ghost use Rattle.control.specs.Layout.{field_at};
ghost use Rattle.stepped.specs.Start.{next_up, start_image};
ghost use Rattle.start.specs.Filled.{filled};

use control::column::{Column, Control};
use control::layout;
use fields::Number;
use limits::index::{Index, List, RegionCount};
use strip_tree::tree;
use words::head::Head;

// How many descriptors are spare at first: all of them.
const SPARES: usize = limits::DESCRIPTORS;

// The top of a cache without blocks.
const BOTTOM: u16 = limits::UNITS as u16;

// The next of an item as a number plus one, where `count` items rise from item 0 on top: none for the last.
fn next_up(count: usize, item: usize) -> u8
    requires { item < DESCRIPTORS }
    ensures { result ≡ next_up count item }
{
    if item + 1 == count {
        0
    } else {
        (item + 2) as u8
    }
}

// Writes the first `count` numbers of a column, each that of its index.
fn fill<T: Number, const N: usize, F: Fn(usize) -> T>(
    control: &mut Control,
    column: &Column<T, N>,
    count: usize,
    number: F,
)
    requires inside { count ≤ N }
    requires callable { (i : ℕ) → i < count → F.pre number i }
    ensures { (x : ℕ → ℕ) → ((i : ℕ) (y : _) → i < count → F.post number i y → T.value y ≡ x i)
        → control.new ≡ filled (field_at column.now.start) x count control.old }
{
    for i in (0..count).rev() {
        column.set(control, Index::new(i), number(i));
    }
}

// The control memory of a pool that has just been started.
pub fn image(control: &mut Control, tasks: u8, regions: RegionCount)
    ensures { control.new ≡ start_image (record { tasks = tasks }) regions }
{
    let count = regions.get();
    let first = Head { item: 1, tag: 0 };
    let word = first.word();
    control.fill(0);
    layout::STARTED_TASKS.set_only(control, tasks);
    layout::STARTED_REGIONS.set_only(control, count as u8);
    layout::HEADS.set(control, List::new(limits::SPARE_DESCRIPTORS), word);
    layout::HEADS.set(control, List::new(limits::SPARE_REGIONS), word);
    layout::FREE_NODES.set(control, Index::new(0), tree::WHOLE_FREE);
    fill(
        control,
        &layout::DESCRIPTOR_NEXTS,
        SPARES,
        |i| next_up(SPARES, i),
    );
    fill(control, &layout::REGION_NEXTS, count, |i| next_up(count, i));
    fill(control, &layout::CACHE_TOPS, layout::CACHES, |_| BOTTOM);
}

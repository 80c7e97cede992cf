// The beginning of a free. Its tests are made in the order of the reads: the map entry, the descriptor's region and
// anchor, its class, the mark.
ghost use Rattle.std.specs.Prelude.{◌≡◌, ℕ};
ghost use Rattle.control.specs.Layout.{seen};
ghost use Rattle.stepped.specs.Calls.{when_idle, begin_free, begin_free_small, free_open};
ghost use Rattle.stepped.specs.Done.{Done};
ghost use Rattle.begins.specs.TestNumber.{unless_refused};

use crate::idle;
use classes::geometry;
use control::answer::Answer;
use control::column::Control;
use control::{layout, places};
use limits::index;
use limits::index::{Class, Descriptor, Index, RegionCount, Task};
use limits::refusal::Refusal;
use words::anchor::Anchor;
use words::{anchor, mark};

// The descriptor that has opened the unit's region. 10 where the area has no such region, the map has no entry for it,
// or the descriptor of that entry does not name it back or has the anchor EMPTY. Caller: `begin`.
fn opened_by(control: &Control, regions: RegionCount, unit: usize) -> Result<Descriptor, Refusal>
    ensures { (t : ℕ) → begin_free_small (seen control.now) regions t unit
        ≡ unless_refused result (free_open (seen control.now) t unit) }
{
    let Ok(region) = regions.region(geometry::region_of(unit)) else {
        return Err(Refusal::NoBlock);
    };
    let entry = layout::MAP_ENTRIES.get(control, region);
    // The entry less one wraps where it is 0, so that one comparison passes all entries that name a descriptor.
    let Ok(descriptor) = Descriptor::of((entry as usize).wrapping_sub(1)) else {
        index::in_range(entry == 0)?;
        return Err(Refusal::NoBlock);
    };
    let named = layout::DESCRIPTOR_REGIONS.get(control, descriptor) as usize;
    // A region that is the unit's own needs no test of its range.
    if named != region.get() {
        index::in_range(named < regions.get())?;
        return Err(Refusal::NoBlock);
    }
    let word = layout::ANCHORS.get(control, descriptor);
    index::in_range(ranges::is_anchor(word))?;
    if Anchor::of(word).state == anchor::EMPTY {
        return Err(Refusal::NoBlock);
    }
    Ok(descriptor)
}

// 6 where the task has a request in hand; the units from UNITS up are those of strips; 10 where no block begins at the
// unit, and 11 where its mark is clear; else the mark is cleared. The caller is the exported call, after the tests.
pub fn begin(
    control: &mut Control,
    regions: RegionCount,
    task: Task,
    unit: u64,
) -> Result<Answer, Refusal>
    ensures { Done (when_idle (seen control.old) task (begin_free (seen control.old) regions task unit))
        control.old control.new result }
{
    idle::idle(control, task)?;
    if (limits::UNITS as u64) <= unit {
        return steps_strips::begin::begin(control, task, unit);
    }
    let first = unit as usize;
    let descriptor = opened_by(control, regions, first)?;
    let class = layout::DESCRIPTOR_CLASSES.get(control, descriptor);
    if !geometry::is_first(Class::of(class as usize)?, first) {
        return Err(Refusal::NoBlock);
    }
    let marks = Index::new(first / limits::WORD_MARKS);
    let bit = (first % limits::WORD_MARKS) as u32;
    let word = layout::UNIT_MARKS.get(control, marks);
    if !mark::test(word, bit) {
        return Err(Refusal::NotInHand);
    }
    let cleared = mark::clear(word, bit);
    layout::TASK_PLACES.set(control, task, places::F1);
    layout::TASK_CLASSES.set(control, task, class);
    layout::TASK_UNITS.set(control, task, first as u16);
    layout::TASK_LOSTS.set(control, task, 0);
    layout::UNIT_MARKS.set(control, marks, cleared);
    Ok(Answer::Accepted)
}

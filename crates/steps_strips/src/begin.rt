// The beginning of a strip's free.
ghost use Rattle.control.specs.Layout.{seen};
ghost use Rattle.stepped.specs.Done.{Done};
ghost use Rattle.stepped.specs.StripSteps.{begin_free_strip};

use control::answer::Answer;
use control::column::Control;
use control::{layout, places};
use limits::index;
use limits::index::Task;
use limits::refusal::Refusal;
use strip_tree::{nodes, states, units};

// Begins the free of the strip that a unit names: 10 where no strip begins there, 11 where its free has begun. Caller:
// the beginning of a free, for a unit from UNITS up.
pub fn begin(control: &mut Control, task: Task, unit: u64) -> Result<Answer, Refusal>
    ensures { Done (begin_free_strip (seen control.old) task unit) control.old control.new result }
{
    let Some(slot) = units::slot_of(unit as usize) else {
        return Err(Refusal::NoBlock);
    };
    let byte = layout::BYTES_OF_SLOTS.get(control, slot);
    if byte == 0 {
        return Err(Refusal::NoBlock);
    }
    index::in_range(byte <= states::LAST_BYTE)?;
    index::in_range(nodes::divides(slot, states::order_in(byte)))?;
    if states::FREE_BEGUN <= byte {
        return Err(Refusal::NotInHand);
    }
    layout::TASK_PLACES.set(control, task, places::STRIP_GIVE);
    layout::TASK_UNITS.set(control, task, unit as u16);
    layout::TASK_LOSTS.set(control, task, 0);
    layout::BYTES_OF_SLOTS.set(control, slot, byte + limits::ORDERS as u8);
    Ok(Answer::Accepted)
}

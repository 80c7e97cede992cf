// The step that frees a strip.
ghost use Rattle.control.specs.Layout.{seen};
ghost use Rattle.stepped.specs.Done.{Done};
ghost use Rattle.stepped.specs.StripSteps.{strip_give};

use crate::tree_fields;
use control::answer::Answer;
use control::column::Control;
use control::{layout, places};
use limits::index;
use limits::index::Task;
use limits::refusal::Refusal;
use strip_tree::{nodes, states, units};

// Frees the strip that the task's unit names, whose free has begun. Caller: the step of a task at STRIP_GIVE.
pub fn give(control: &mut Control, task: Task) -> Result<Answer, Refusal>
    ensures { Done (strip_give (seen control.old) task) control.old control.new result }
{
    let unit = layout::TASK_UNITS.get(control, task);
    let Some(slot) = units::slot_of(unit as usize) else {
        return Err(Refusal::OutOfRange);
    };
    let byte = layout::BYTES_OF_SLOTS.get(control, slot);
    index::in_range(states::FREE_BEGUN <= byte)?;
    index::in_range(byte <= states::LAST_BYTE)?;
    let order = states::order_in(byte);
    index::in_range(nodes::divides(slot, order))?;
    let tree = tree_fields::tree(control);
    layout::TASK_PLACES.set(control, task, places::IDLE);
    layout::BYTES_OF_SLOTS.set(control, slot, 0);
    tree_fields::set_tree(control, tree.join(nodes::node_of(slot, order), order));
    Ok(Answer::Freed)
}

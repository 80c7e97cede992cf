// The step that takes a strip.
ghost use Rattle.control.specs.Layout.{seen};
ghost use Rattle.stepped.specs.Done.{Done};
ghost use Rattle.stepped.specs.StripSteps.{strip_take};

use crate::tree_fields;
use control::answer::Answer;
use control::column::Control;
use control::{layout, places};
use limits::index::{Class, Order, Task};
use limits::refusal::Refusal;
use strip_tree::{nodes, states, units};

// Takes a strip of the order that the request has as its class; 16 where no piece is found. The smallest piece found is
// halved to the order wanted. Caller: the step of a task at STRIP_TAKE.
pub fn take(control: &mut Control, task: Task, class: Class) -> Result<Answer, Refusal>
    ensures { Done (strip_take (seen control.old) task class) control.old control.new result }
{
    let wanted = Order::of(class.get())?;
    let tree = tree_fields::tree(control);
    layout::TASK_PLACES.set(control, task, places::IDLE);
    let Some(found) = tree.find(wanted) else {
        return Ok(Answer::NoStrip);
    };
    let slot = nodes::slot_of(found.node, found.order);
    layout::BYTES_OF_SLOTS.set(control, slot, states::IN_HAND + wanted.get() as u8);
    let left = tree.clear(found.node);
    tree_fields::set_tree(control, left.halve(found.node, found.order, wanted));
    Ok(Answer::Allocated(units::unit_of_slot(slot)))
}

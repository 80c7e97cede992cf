// The lost exchanges of each task, in the request that it has in hand. The callers are the steps that exchange a head or
// an anchor.
ghost use Rattle.std.specs.Prelude.{◌≡◌, [], ◌∷◌};
ghost use Rattle.fields.specs.Columns.{◌:=◌};
ghost use Rattle.control.specs.Layout.{seen, changed, TaskLost};
ghost use Rattle.control.specs.Losts.{one_more};

use crate::column::Control;
use crate::layout;
use limits::index::Task;

// Counts a lost exchange of a task. The count stops at the most that its type has.
pub fn count(control: &mut Control, task: Task)
    ensures { control.new ≡ changed (TaskLost task := one_more (seen control.old (TaskLost task)) ∷ []) control.old }
{
    let lost = layout::TASK_LOSTS.get(control, task);
    layout::TASK_LOSTS.set(control, task, lost.saturating_add(1));
}

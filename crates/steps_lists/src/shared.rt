// What the steps of the pops and of the pushes do alike.
ghost use Rattle.std.specs.Prelude.{◌≡◌, ◌+◌, [], ◌∷◌};
ghost use Rattle.fields.specs.Columns.{◌:=◌};
ghost use Rattle.control.specs.Layout.{seen, changed, TaskPlace, TaskHead, TaskLost};
ghost use Rattle.control.specs.Losts.{one_more};
ghost use Rattle.control.specs.Places.{TO_NEXT};

use crate::reason::ListMove;
use control::column::Control;
use control::{layout, losts, places};
use limits::index::Task;

// The head that was read is noted, and the next is due.
pub fn note<M: ListMove>(control: &mut Control, task: Task, list_move: M, word: u64)
    ensures { control.new ≡ changed
        (TaskPlace task := (M.place list_move + TO_NEXT) ∷ TaskHead task := word ∷ []) control.old }
{
    layout::TASK_PLACES.set(control, task, list_move.place() + places::TO_NEXT);
    layout::TASK_HEADS.set(control, task, word);
}

// An exchange was lost: the task goes back to the head read, and the exchange is counted.
pub fn lose<M: ListMove>(control: &mut Control, task: Task, list_move: M)
    ensures { control.new ≡ changed
        (TaskPlace task := M.place list_move ∷ TaskLost task := one_more (seen control.old (TaskLost task)) ∷ [])
        control.old }
{
    layout::TASK_PLACES.set(control, task, list_move.place());
    losts::count(control, task);
}

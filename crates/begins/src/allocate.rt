// The beginning of an allocation.
ghost use Rattle.std.specs.Prelude.{◌≡◌, [], ◌∷◌};
ghost use Rattle.fields.specs.Columns.{◌:=◌};
ghost use Rattle.control.specs.Layout.{seen, changed, TaskPlace, TaskClass, TaskLost};
ghost use Rattle.control.specs.declared.answer.Answer.TheVariants.{Accepted};
ghost use Rattle.stepped.specs.Calls.{when_idle, begin_allocate};
ghost use Rattle.stepped.specs.Done.{Done};

use crate::idle;
use classes::size;
use classes::size::Choice;
use control::answer::Answer;
use control::column::Control;
use control::{layout, places};
use limits::index::Task;
use limits::refusal::Refusal;

// The request begins at a place of the step list, with the class of its block or the order of its strip. Caller:
// `begin`.
fn accept(control: &mut Control, task: Task, place: u8, class: u8) -> Answer
    ensures answer { result ≡ Accepted }
    ensures stores { control.new ≡ changed (TaskPlace task := place ∷ TaskClass task := class ∷ TaskLost task := 0 ∷ [])
        control.old }
{
    layout::TASK_PLACES.set(control, task, place);
    layout::TASK_CLASSES.set(control, task, class);
    layout::TASK_LOSTS.set(control, task, 0);
    Answer::Accepted
}

// 6 where the task has a request in hand; 8 and 9 refuse a size; else the request begins, with the smallest class that
// holds the size, or with the order of the smallest strip that does. The caller is the exported call, after the tests.
pub fn begin(control: &mut Control, task: Task, size: u64) -> Result<Answer, Refusal>
    ensures { Done (when_idle (seen control.old) task (begin_allocate task size)) control.old control.new result }
{
    idle::idle(control, task)?;
    match size::size_class(size)? {
        Choice::Class(class) => {
            let class = class.get() as u8;
            Ok(accept(control, task, places::A1, class))
        }
        Choice::Strip => {
            let order = strip_tree::size::order_of(size as usize);
            Ok(accept(control, task, places::STRIP_TAKE, order.get() as u8))
        }
    }
}

// The beginning of leaving.
ghost use Rattle.control.specs.Layout.{seen};
ghost use Rattle.stepped.specs.Done.{Done};
ghost use Rattle.stepped.specs.Leaving.{begin_leave};

use crate::next;
use control::answer::Answer;
use control::column::Control;
use control::layout;
use limits::index::Task;
use limits::refusal::Refusal;

// Begins leaving, with the first cache that is not empty. Caller: the beginning of a request, by an idle task.
pub fn begin(control: &mut Control, task: Task) -> Result<Answer, Refusal>
    ensures { Done (begin_leave (seen control.old) task) control.old control.new result }
{
    next::go(control, task, 0)?;
    layout::TASK_UNITS.set(control, task, layout::LEAVING);
    layout::TASK_LOSTS.set(control, task, 0);
    Ok(Answer::Accepted)
}

// The last step of leaving.
ghost use Rattle.std.specs.Prelude.{Ok};
ghost use Rattle.control.specs.Layout.{seen};
ghost use Rattle.stepped.specs.Done.{Done};
ghost use Rattle.stepped.specs.Leaving.{leave_end};

use control::answer::Answer;
use control::column::Control;
use control::{layout, places};
use limits::index::Task;

// All caches are empty: the request finishes. Caller: the step of a task at LEAVE_END.
pub fn finish(control: &mut Control, task: Task) -> Answer
    ensures { Done (leave_end (seen control.old) task) control.old control.new (Ok result) }
{
    layout::TASK_PLACES.set(control, task, places::IDLE);
    Answer::Freed
}

// The beginning of leaving.
ghost use Rattle.control.specs.Layout.{seen};
ghost use Rattle.stepped.specs.Calls.{when_idle};
ghost use Rattle.stepped.specs.Done.{Done};
ghost use Rattle.stepped.specs.Leaving.{begin_leave};

use crate::idle;
use control::answer::Answer;
use control::column::Control;
use limits::index::Task;
use limits::refusal::Refusal;

// 6 where the task has a request in hand; else leaving begins. The caller is the exported call, after the tests.
pub fn begin(control: &mut Control, task: Task) -> Result<Answer, Refusal>
    ensures { Done (when_idle (seen control.old) task (begin_leave (seen control.old) task))
        control.old control.new result }
{
    idle::idle(control, task)?;
    steps_leave::begin::begin(control, task)
}

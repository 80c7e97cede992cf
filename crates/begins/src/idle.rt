// Test 6, which the beginning of each request makes first.
ghost use Rattle.std.specs.Prelude.{◌≡◌};
ghost use Rattle.control.specs.Layout.{seen};
ghost use Rattle.stepped.specs.Outcome.{Outcome};
ghost use Rattle.stepped.specs.Calls.{when_idle};
ghost use Rattle.begins.specs.TestNumber.{unless_refused};

use control::column::Control;
use control::{layout, places};
use limits::index;
use limits::index::Task;
use limits::refusal::Refusal;

// 6 where the task has a request in hand. Callers: the beginnings of the requests.
pub fn idle(control: &Control, task: Task) -> Result<(), Refusal>
    ensures { (x : Outcome) → when_idle (seen control.now) task x ≡ unless_refused result (λ _. x) }
{
    let place = layout::TASK_PLACES.get(control, task);
    if place == places::IDLE {
        return Ok(());
    }
    index::in_range(place < places::PLACES)?;
    Err(Refusal::Busy)
}

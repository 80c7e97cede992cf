// Step 4, its first step: the map entry of the group's region is cleared, before the region is pushed.
ghost use Rattle.std.specs.Prelude.{ℕ};
ghost use Rattle.control.specs.Layout.{seen};
ghost use Rattle.stepped.specs.Done.{Done};
ghost use Rattle.stepped.specs.Free.{f4_clear};

use control::answer::Answer;
use control::column::Control;
use control::request::Request;
use control::{layout, places};
use limits::refusal::Refusal;

// Clears the map entry of the group's region. Caller: the step of a task at F4_CLEAR.
#[tactic(auto, unfolding(stepped::specs::Free::f4_clear))]
pub fn clear(control: &mut Control, request: Request) -> Result<Answer, Refusal>
    ensures { (link : ℕ → ℕ) → Done (f4_clear (seen control.old) link request.regions request.task request.class)
        control.old control.new result }
{
    let noted = layout::TASK_REGIONS.get(control, request.task) as usize;
    let region = request.regions.region(noted)?;
    layout::TASK_PLACES.set(control, request.task, places::PUSH_RELEASE);
    layout::MAP_ENTRIES.set(control, region, 0);
    Ok(Answer::Accepted)
}

// Where leaving goes on: with the next cache that is not empty, or, behind the last one, with the step that finishes.
ghost use Rattle.std.specs.Prelude.{◌≡◌, ◌≤◌, false, OnOk, OnErr, MatchOption};
ghost use Rattle.limits.specs.Limits.{CLASSES};
ghost use Rattle.control.specs.Layout.{seen};
ghost use Rattle.stepped.specs.Leaving.{next_cached, count_fits};
ghost use Rattle.steps_leave.specs.Goes.{Goes};

use classes::table;
use control::column::Control;
use control::{layout, places};
use limits::index::{Class, OutOfRange, Task, in_range};

// The first class from `from` on whose cache is not empty. It is a loop and no recursion, so that the steps that end a
// return, which have it within them, need no call: a free would pay for the registers that one saves. Caller: `go`.
fn next(control: &Control, task: Task, from: usize) -> Option<Class>
    requires { from ≤ CLASSES }
    ensures { MatchOption result
        (next_cached (seen control.now) task from ≡ CLASSES)
        (λ class. class ≡ next_cached (seen control.now) task from) }
{
    for number in from..limits::CLASSES {
        let class = Class::new(number);
        if layout::CACHE_COUNTS.get_of(control, task, class) != 0 {
            return Some(class);
        }
    }
    None
}

// Goes on with the next cache of the classes from `from` on, or to the last step; unless the cache's count is out of its
// range. Callers: the beginning of leaving, and the steps that end the return of a cache.
pub fn go(control: &mut Control, task: Task, from: usize) -> Result<(), OutOfRange>
    requires { from ≤ CLASSES }
    ensures goes { OnOk result (Goes (seen control.old) task from control.old control.new) }
    ensures outside { OnErr result
        (count_fits (seen control.old) task (next_cached (seen control.old) task from) ≡ false) }
    ensures kept { OnErr result (control.new ≡ control.old) }
{
    let Some(class) = next(control, task, from) else {
        layout::TASK_PLACES.set(control, task, places::LEAVE_END);
        return Ok(());
    };
    let count = layout::CACHE_COUNTS.get_of(control, task, class) as usize;
    in_range(count <= table::per_region(class))?;
    layout::TASK_PLACES.set(control, task, places::F2);
    layout::TASK_CLASSES.set(control, task, class.get() as u8);
    layout::GROUP_COUNTS.set(control, task, 0);
    Ok(())
}

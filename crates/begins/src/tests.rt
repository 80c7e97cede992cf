// The tests that every call but a start makes first.
ghost use Rattle.std.specs.Prelude.{◌≡◌, true, false, OnOk, OnErr, IfErr, length};
ghost use Rattle.limits.specs.Limits.{CONTROL_BYTES};
ghost use Rattle.control.specs.Layout.{seen};
ghost use Rattle.begins.specs.TestNumber.{first_failed, TestsAre};

use control::column::Control;
use control::layout;
use limits::index;
use limits::index::{Regions, Task};
use limits::refusal::Refusal;

// What the tests find of a call that passes them.
#[derive(Clone, Copy)]
pub struct Started {
    // How many regions the pool was started with.
    pub regions: Regions,
    // The task that calls.
    pub task: Task,
}

// The first that fails of test 4 and of a test behind it that fails by the refusal `behind`. Callers: `follows`
// and `tests`.
fn first_failed(tasks: u8, behind: Refusal) -> Refusal
    ensures { result ≡ first_failed tasks behind }
{
    if tasks == 0 {
        return Refusal::NotStarted;
    }
    behind
}

// Goes on where a test behind test 4 has passed. Caller: `tests`.
fn follows(tasks: u8, test: bool, refusal: Refusal) -> Result<(), Refusal>
    ensures passed { OnOk result (test ≡ true) }
    ensures failed { OnErr result (test ≡ false) }
    ensures told { IfErr result (λ e. e ≡ first_failed tasks refusal) }
{
    if test {
        return Ok(());
    }
    Err(first_failed(tasks, refusal))
}

// The tests behind test 1, which is the type of the control memory: 4, 2, 5, in this order, by the lengths of the area
// and of the strips' memory; 14 where a stored number is out of its range. In a pool that is not started test 5 fails,
// too, since it has no tasks: so 4 is asked for only where a test behind it fails, and not by a call that passes. The
// callers are the exported calls, and `tests`.
pub fn later_tests(
    control: &Control,
    area: usize,
    strips: usize,
    task: u64,
) -> Result<Started, Refusal>
    ensures { TestsAre (record { control = CONTROL_BYTES; area = area; strips = strips })
        (seen control.now) task result }
{
    let tasks = layout::STARTED_TASKS.get_only(control);
    index::in_range((tasks as usize) <= limits::TASKS)?;
    let Ok(regions) = Regions::of(layout::STARTED_REGIONS.get_only(control) as usize) else {
        return Err(first_failed(tasks, Refusal::OutOfRange));
    };
    follows(
        tasks,
        area == limits::REGION_BYTES * regions.get(),
        Refusal::AreaLength,
    )?;
    follows(tasks, strips == limits::STRIPS_BYTES, Refusal::AreaLength)?;
    follows(tasks, task < tasks as u64, Refusal::NoTask)?;
    Ok(Started {
        regions,
        task: Task::new(task as usize),
    })
}

// The tests 1, 4, 2, 5, in this order, by the lengths of the three memories: whether a call passes them, and what they
// find, or the first that fails.
pub fn tests(control: &[u8], area: usize, strips: usize, task: u64) -> Result<Started, Refusal>
    ensures { TestsAre (record { control = length control.now; area = area; strips = strips })
        (seen control.now) task result }
{
    let Some(control) = control.as_array::<{ limits::CONTROL_BYTES }>() else {
        return Err(Refusal::ControlLength);
    };
    later_tests(control, area, strips, task)
}

// The functions that firmware calls, from C by crates/pool_c, which exports each under its name. Each takes the three
// memories as byte slices, and answers one number: the code in the low 8 bits, the value in the next 24, and where a
// step ends a request its lost exchanges in the high 32. Of the strips' memory only the length is asked. No call asks
// anything of its caller: any bytes and any numbers are answered.
#![tactic(auto)]

ghost use Rattle.std.specs.Prelude.{◌≡◌, ◌/◌, IfOk, IfErr, length};
ghost use Rattle.limits.specs.Limits.{REGION_BYTES};
ghost use Rattle.links.specs.Link.{link};
ghost use Rattle.plain.specs.Calls.{start, allocate as allocated, free as freed, leave as left};
ghost use Rattle.plain.specs.Calls.{step as stepped, StartTested, StartFails};
ghost use Rattle.control.specs.Layout.{seen};
ghost use Rattle.control.specs.Answers.{refusal_number};
ghost use Rattle.stepped.specs.Calls.{allocate_outcome, free_outcome, leave_outcome, step_outcome};
ghost use Rattle.stepped.specs.Done.{Done, NumberIn};
ghost use Rattle.begins.specs.TestNumber.{TestsAre};
ghost use Rattle.reports.specs.Reports.{report_number};
ghost use Rattle.pool.specs.Call.{lengths_of, Ensures};
ghost use Rattle.pool.specs.ReportCall.{SheetEnsures, HoldersEnsures, KeepersEnsures};

use begins::tests::Started;
use begins::{allocate, free, leave, tests};
use control::answer;
use control::answer::Answer;
use control::column::Control;
use limits::index::Regions;
use limits::refusal::Refusal;
use steps::step;

// The tests of a start, 2 and 3, and how many regions the area has. Caller: `pool_start`.
fn start_tests(area: usize, strips: usize, tasks: u64) -> Result<Regions, Refusal>
    ensures started { IfOk result (λ regions. (regions ≡ area / REGION_BYTES)
        × StartTested (record { tasks = tasks }) (lengths_of area strips)) }
    ensures refused { IfErr result (λ refusal. StartFails (record { tasks = tasks }) (lengths_of area strips)
        (refusal_number refusal)) }
{
    if area % limits::REGION_BYTES != 0 {
        return Err(Refusal::AreaLength);
    }
    let Ok(regions) = Regions::of(area / limits::REGION_BYTES) else {
        return Err(Refusal::AreaLength);
    };
    if strips != limits::STRIPS_BYTES {
        return Err(Refusal::AreaLength);
    }
    if tasks < 1 {
        return Err(Refusal::TaskCount);
    }
    if (limits::TASKS as u64) < tasks {
        return Err(Refusal::TaskCount);
    }
    Ok(regions)
}

// Begins a new run with so many tasks, on any bytes: it fills the control memory, and leaves the others as they are.
pub fn pool_start(control: &mut [u8], area: &[u8], strips: &[u8], tasks: u64) -> u64
    ensures { Ensures (start (record { tasks = tasks })) control.old area.now strips.now
        control.new area.now strips.now result }
{
    let Some(control) = control.as_mut_array::<{ limits::CONTROL_BYTES }>() else {
        return answer::number(Err(Refusal::ControlLength));
    };
    match start_tests(area.len(), strips.len(), tasks) {
        Ok(regions) => {
            start::image(control, tasks as u8, regions.count());
            0
        }
        Err(refusal) => answer::number(Err(refusal)),
    }
}

// The beginning of an allocation. Caller: `pool_begin_allocate`, which has tested the length of the control memory.
fn begin_allocate(
    control: &mut Control,
    area: &[u8],
    strips: &[u8],
    task: u64,
    size: u64,
) -> Result<Answer, Refusal>
    ensures { Done
        (allocate_outcome (lengths_of (length area.now) (length strips.now)) (seen control.old) task size)
        control.old control.new result }
{
    let started = tests::later_tests(control, area.len(), strips.len(), task)?;
    allocate::begin(control, started.task, size)
}

// Begins an allocation of so many bytes for a task, of a block or of a strip. It does no step.
pub fn pool_begin_allocate(
    control: &mut [u8],
    area: &[u8],
    strips: &[u8],
    task: u64,
    size: u64,
) -> u64
    ensures { Ensures (allocated task size) control.old area.now strips.now
        control.new area.now strips.now result }
{
    let Some(control) = control.as_mut_array::<{ limits::CONTROL_BYTES }>() else {
        return answer::number(Err(Refusal::ControlLength));
    };
    answer::number(begin_allocate(control, area, strips, task, size))
}

// The beginning of a free. Caller: `pool_begin_free`, which has tested the length of the control memory.
fn begin_free(
    control: &mut Control,
    area: &[u8],
    strips: &[u8],
    task: u64,
    unit: u64,
) -> Result<Answer, Refusal>
    ensures { Done
        (free_outcome (lengths_of (length area.now) (length strips.now)) (seen control.old) task unit)
        control.old control.new result }
{
    let started = tests::later_tests(control, area.len(), strips.len(), task)?;
    free::begin(control, started.regions.count(), started.task, unit)
}

// Begins the free of the block or strip at this unit, by any task: the mark of a block is cleared, and the byte of a
// strip's slot says that its free has begun. It does no step.
pub fn pool_begin_free(control: &mut [u8], area: &[u8], strips: &[u8], task: u64, unit: u64) -> u64
    ensures { Ensures (freed task unit) control.old area.now strips.now
        control.new area.now strips.now result }
{
    let Some(control) = control.as_mut_array::<{ limits::CONTROL_BYTES }>() else {
        return answer::number(Err(Refusal::ControlLength));
    };
    answer::number(begin_free(control, area, strips, task, unit))
}

// The beginning of leaving. Caller: `pool_begin_leave`, which has tested the length of the control memory.
fn begin_leave(
    control: &mut Control,
    area: &[u8],
    strips: &[u8],
    task: u64,
) -> Result<Answer, Refusal>
    ensures { Done
        (leave_outcome (lengths_of (length area.now) (length strips.now)) (seen control.old) task)
        control.old control.new result }
{
    let started = tests::later_tests(control, area.len(), strips.len(), task)?;
    leave::begin(control, started.task)
}

// Begins leaving: the steps of the request give back all that the task has cached, class by class. It does no step.
pub fn pool_begin_leave(control: &mut [u8], area: &[u8], strips: &[u8], task: u64) -> u64
    ensures { Ensures (left task) control.old area.now strips.now
        control.new area.now strips.now result }
{
    let Some(control) = control.as_mut_array::<{ limits::CONTROL_BYTES }>() else {
        return answer::number(Err(Refusal::ControlLength));
    };
    answer::number(begin_leave(control, area, strips, task))
}

// One step. Caller: `pool_step`, which has tested the length of the control memory.
fn step_of(control: &mut Control, area: &mut [u8], strips: &[u8], task: u64) -> u64
    ensures { NumberIn
        (step_outcome (lengths_of (length area.old) (length strips.now)) (seen control.old) (link area.old) task)
        task control.old area.old control.new area.new result }
{
    match tests::later_tests(control, area.len(), strips.len(), task) {
        Ok(started) => step::step(control, area, started.regions.count(), started.task),
        Err(refusal) => answer::number(Err(refusal)),
    }
}

// One step of the request that a task has in hand.
pub fn pool_step(control: &mut [u8], area: &mut [u8], strips: &[u8], task: u64) -> u64
    ensures { Ensures (stepped task) control.old area.old strips.now
        control.new area.new strips.now result }
{
    let Some(control) = control.as_mut_array::<{ limits::CONTROL_BYTES }>() else {
        return answer::number(Err(Refusal::ControlLength));
    };
    step_of(control, area, strips, task)
}

// The number of a report's answer: 20 where its row is filled.
fn report_number(written: Result<(), Refusal>) -> u64
    ensures { result ≡ report_number written }
{
    match written {
        Ok(()) => 20,
        Err(refusal) => answer::number(Err(refusal)),
    }
}

// The tests 4, 2 of a report: those of a call of task 0, which every started pool has. Callers: the reports below.
fn report_tests(control: &Control, area: &[u8], strips: &[u8]) -> Result<Started, Refusal>
    ensures { TestsAre (lengths_of (length area.now) (length strips.now)) (seen control.now) 0 result }
{
    tests::later_tests(control, area.len(), strips.len(), 0)
}

// The tests 4, 2 and the report. Caller: `pool_sheet`, which has tested the length of the control memory.
fn fill_sheet(
    control: &Control,
    area: &[u8],
    strips: &[u8],
    sheet: &mut [u8],
) -> Result<(), Refusal>
    ensures { SheetEnsures control.now area.now strips.now
        sheet.old sheet.new (report_number result) }
{
    let started = report_tests(control, area, strips)?;
    sheet::write(control, area, started.regions.count(), sheet)
}

// The stock sheet: where the small blocks are, for each class and region, in the lent row. It changes nothing else.
pub fn pool_sheet(control: &[u8], area: &[u8], strips: &[u8], sheet: &mut [u8]) -> u64
    ensures { SheetEnsures control.now area.now strips.now
        sheet.old sheet.new result }
{
    let Some(control) = control.as_array::<{ limits::CONTROL_BYTES }>() else {
        return answer::number(Err(Refusal::ControlLength));
    };
    report_number(fill_sheet(control, area, strips, sheet))
}

// The tests 4, 2 and the report. Caller: `pool_holders`, which has tested the length of the control memory.
fn fill_holders(
    control: &Control,
    area: &[u8],
    strips: &[u8],
    form: &mut [u8],
) -> Result<(), Refusal>
    ensures { HoldersEnsures control.now area.now strips.now
        form.old form.new (report_number result) }
{
    let started = report_tests(control, area, strips)?;
    holders::write(control, area, started.regions.count(), form)
}

// The form by holder: how many small blocks of each class each holder has, in the lent row. It changes nothing else.
pub fn pool_holders(control: &[u8], area: &[u8], strips: &[u8], form: &mut [u8]) -> u64
    ensures { HoldersEnsures control.now area.now strips.now
        form.old form.new result }
{
    let Some(control) = control.as_array::<{ limits::CONTROL_BYTES }>() else {
        return answer::number(Err(Refusal::ControlLength));
    };
    report_number(fill_holders(control, area, strips, form))
}

// The tests 4, 2 and the report. Caller: `pool_keepers`, which has tested the length of the control memory.
fn fill_keepers(
    control: &Control,
    area: &[u8],
    strips: &[u8],
    keepers: &mut [u8],
) -> Result<(), Refusal>
    ensures { KeepersEnsures control.now area.now strips.now
        keepers.old keepers.new (report_number result) }
{
    let started = report_tests(control, area, strips)?;
    keepers::write(control, area, started.regions.count(), keepers)
}

// The region's keepers: who keeps each region of the area, in the lent row. It changes nothing else.
pub fn pool_keepers(control: &[u8], area: &[u8], strips: &[u8], keepers: &mut [u8]) -> u64
    ensures { KeepersEnsures control.now area.now strips.now
        keepers.old keepers.new result }
{
    let Some(control) = control.as_array::<{ limits::CONTROL_BYTES }>() else {
        return answer::number(Err(Refusal::ControlLength));
    };
    report_number(fill_keepers(control, area, strips, keepers))
}

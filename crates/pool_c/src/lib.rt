// The C library: each function of the pool under its name, for firmware. An export only calls the function of that name
// of crates/pool, and ensures the same. A memory comes as a pointer and its length; include/pool.h declares them for C.
#![tactic(auto)]

ghost use Rattle.plain.specs.Calls.{start, allocate as allocated, free as freed, leave as left};
ghost use Rattle.plain.specs.Calls.{step as stepped};
ghost use Rattle.pool.specs.Call.{Ensures};
ghost use Rattle.pool.specs.ReportCall.{SheetEnsures, HoldersEnsures, KeepersEnsures};

// Begins a new run.
#[unsafe(no_mangle)]
pub extern "C" fn pool_start(control: &mut [u8], area: &[u8], strips: &[u8], tasks: u64) -> u64
    ensures { Ensures (start (record { tasks = tasks })) control.old area.now strips.now
        control.new area.now strips.now result }
{
    pool::pool_start(control, area, strips, tasks)
}

// Begins an allocation.
#[unsafe(no_mangle)]
pub extern "C" fn pool_begin_allocate(
    control: &mut [u8],
    area: &[u8],
    strips: &[u8],
    task: u64,
    size: u64,
) -> u64
    ensures { Ensures (allocated task size) control.old area.now strips.now
        control.new area.now strips.now result }
{
    pool::pool_begin_allocate(control, area, strips, task, size)
}

// Begins the free of a block or strip.
#[unsafe(no_mangle)]
pub extern "C" fn pool_begin_free(
    control: &mut [u8],
    area: &[u8],
    strips: &[u8],
    task: u64,
    unit: u64,
) -> u64
    ensures { Ensures (freed task unit) control.old area.now strips.now
        control.new area.now strips.now result }
{
    pool::pool_begin_free(control, area, strips, task, unit)
}

// Begins leaving.
#[unsafe(no_mangle)]
pub extern "C" fn pool_begin_leave(control: &mut [u8], area: &[u8], strips: &[u8], task: u64) -> u64
    ensures { Ensures (left task) control.old area.now strips.now
        control.new area.now strips.now result }
{
    pool::pool_begin_leave(control, area, strips, task)
}

// One step of the request that a task has in hand.
#[unsafe(no_mangle)]
pub extern "C" fn pool_step(control: &mut [u8], area: &mut [u8], strips: &[u8], task: u64) -> u64
    ensures { Ensures (stepped task) control.old area.old strips.now
        control.new area.new strips.now result }
{
    pool::pool_step(control, area, strips, task)
}

// The stock sheet.
#[unsafe(no_mangle)]
pub extern "C" fn pool_sheet(control: &[u8], area: &[u8], strips: &[u8], sheet: &mut [u8]) -> u64
    ensures { SheetEnsures control.now area.now strips.now
        sheet.old sheet.new result }
{
    pool::pool_sheet(control, area, strips, sheet)
}

// The form by holder.
#[unsafe(no_mangle)]
pub extern "C" fn pool_holders(control: &[u8], area: &[u8], strips: &[u8], form: &mut [u8]) -> u64
    ensures { HoldersEnsures control.now area.now strips.now
        form.old form.new result }
{
    pool::pool_holders(control, area, strips, form)
}

// The region's keepers.
#[unsafe(no_mangle)]
pub extern "C" fn pool_keepers(
    control: &[u8],
    area: &[u8],
    strips: &[u8],
    keepers: &mut [u8],
) -> u64
    ensures { KeepersEnsures control.now area.now strips.now
        keepers.old keepers.new result }
{
    pool::pool_keepers(control, area, strips, keepers)
}

// The stand's three memories, and the calls on them. A start is lent the regions that it names; every other call the
// area of the last accepted start, none before the first.
ghost use Rattle.std.specs.Prelude.{◌≡◌, ◌≤◌, length};
ghost use Rattle.plain.specs.Calls.{start as started, allocate as allocated, free as freed, leave as left};
ghost use Rattle.plain.specs.Calls.{step as stepped};
ghost use Rattle.schedule.specs.Stand.{named, as_started};
ghost use Rattle.schedule.specs.Bytes.{memories, zeros, on_part, on_bytes, started_part, together, Does, Makes};

use crate::lend::{self, STAND_AREA, STAND_REGIONS};

// No call reads or writes the strips' memory. Where there is none, it is zeros, which take no room: neither on the stack
// nor in a program's file.
#[derive(Drop)]
pub struct Stand<'a> {
    pub control: [u8; limits::CONTROL_BYTES],
    pub area: [u8; STAND_AREA],
    pub strips: Option<&'a [u8; limits::STRIPS_BYTES]>,
}

impl<'a> Stand<'a> {
    // "Zero at first".
    pub fn new() -> Stand<'a>
        ensures { memories result ≡ zeros }
    {
        Stand {
            control: [0; limits::CONTROL_BYTES],
            area: [0; STAND_AREA],
            strips: None,
        }
    }

    // The strips' memory that every call is lent.
    pub fn lent_strips(&self) -> &'a [u8; limits::STRIPS_BYTES]
        ensures { result.now ≡ (memories self.now).strips }
    {
        match self.strips {
            Some(strips) => strips,
            None => &[0; limits::STRIPS_BYTES],
        }
    }

    // The part of the area that the pool was started with.
    pub fn lent_area(&self) -> &[u8]
        ensures { result.now ≡ (started_part (memories self.now)).area }
    {
        &self.area[..lend::lent(&self.control)]
    }

    // A start with so many tasks and regions: "more than 4 regions is 2".
    pub fn start(&mut self, tasks: u8, regions: u8) -> u64
        ensures { Does (on_bytes (started (record { tasks = tasks })) (named regions)) self.old self.new result }
    {
        let strips = self.lent_strips();
        let regions = regions as usize;
        if STAND_REGIONS < regions {
            return 2;
        }
        let n = limits::REGION_BYTES * regions;
        pool::pool_start(&mut self.control, &self.area[..n], strips, tasks as u64)
    }

    pub fn allocate(&mut self, task: u8, size: u16) -> u64
        ensures { Does (on_bytes (allocated task size) as_started) self.old self.new result }
    {
        let strips = self.lent_strips();
        let n = lend::lent(&self.control);
        pool::pool_begin_allocate(
            &mut self.control,
            &self.area[..n],
            strips,
            task as u64,
            size as u64,
        )
    }

    pub fn free(&mut self, task: u8, unit: u16) -> u64
        ensures { Does (on_bytes (freed task unit) as_started) self.old self.new result }
    {
        let strips = self.lent_strips();
        let n = lend::lent(&self.control);
        pool::pool_begin_free(
            &mut self.control,
            &self.area[..n],
            strips,
            task as u64,
            unit as u64,
        )
    }

    pub fn leave(&mut self, task: u8) -> u64
        ensures { Does (on_bytes (left task) as_started) self.old self.new result }
    {
        let strips = self.lent_strips();
        let n = lend::lent(&self.control);
        pool::pool_begin_leave(&mut self.control, &self.area[..n], strips, task as u64)
    }

    pub fn step(&mut self, task: u8) -> u64
        ensures { Does (on_bytes (stepped task) as_started) self.old self.new result }
    {
        let strips = self.lent_strips();
        let n = lend::lent(&self.control);
        step_on(&mut self.control, &mut self.area, strips, n, task)
    }
}

// A step that is lent the first n bytes of the area. It stands apart because a part of an array that is a field cannot
// be lent for writing yet: as a slice it can.
fn step_on(control: &mut [u8], area: &mut [u8], strips: &[u8], n: usize, task: u8) -> u64
    requires { n ≤ length area.old }
    ensures { Makes (on_part (stepped task) n) (together control.old area.old strips.now)
        (together control.new area.new strips.now) result }
{
    pool::pool_step(control, &mut area[..n], strips, task as u64)
}

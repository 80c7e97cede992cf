// Steps 7 and 8, by which a region is opened for the class: "One step writes the descriptor (FULL, n, 0) and the map."
// "Put blocks 0 to n − 1 on the cache, one a step; then 1."
ghost use Rattle.std.specs.Prelude.{ℕ};
ghost use Rattle.links.specs.Link.{link};
ghost use Rattle.control.specs.Layout.{seen};
ghost use Rattle.stepped.specs.Done.{AreaOf, Done, DoneIn};
ghost use Rattle.stepped.specs.Allocate.{a7, a8};

use crate::cache;
use classes::table;
use control::answer::Answer;
use control::column::Control;
use control::request::Request;
use control::{layout, places};
use limits::index::{Descriptor, in_range};
use limits::refusal::Refusal;
use steps_allocate::anchor;

// Step 7. Caller: the step of a task at A7.
pub fn open(control: &mut Control, request: Request) -> Result<Answer, Refusal>
    ensures { (link : ℕ → ℕ) → Done (a7 (seen control.old) link request.regions request.task request.class)
        control.old control.new result }
{
    let Request {
        regions,
        task,
        class,
    } = request;
    let descriptor = Descriptor::of(layout::TASK_DESCRIPTORS.get(control, task) as usize)?;
    let region = regions.region(layout::TASK_REGIONS.get(control, task) as usize)?;
    layout::TASK_PLACES.set(control, task, places::A8);
    layout::TASK_INDEXES.set(control, task, 0);
    layout::ANCHORS.set(control, descriptor, anchor::full_word(class));
    layout::DESCRIPTOR_REGIONS.set(control, descriptor, region.get() as u8);
    layout::DESCRIPTOR_CLASSES.set(control, descriptor, class.get() as u8);
    layout::MAP_ENTRIES.set(control, region, descriptor.get() as u8 + 1);
    Ok(Answer::Accepted)
}

// Step 8, of one block. Its link is written in the region's own part of the area. Caller: the step of a task at A8.
pub fn carve(control: &mut Control, area: &mut [u8], request: Request) -> Result<Answer, Refusal>
    requires { AreaOf request.regions area.old }
    ensures { DoneIn (a8 (seen control.old) (link area.old) request.regions request.task request.class)
        control.old area.old control.new area.new result }
{
    let Request {
        regions,
        task,
        class,
    } = request;
    let n = table::per_region(class);
    let region = regions.region(layout::TASK_REGIONS.get(control, task) as usize)?;
    let index = layout::TASK_INDEXES.get(control, task) as usize;
    in_range(index < n)?;
    let count = layout::CACHE_COUNTS.get_of(control, task, class);
    in_range((count as usize) < n)?;
    let top = layout::CACHE_TOPS.get_of(control, task, class);
    in_range(ranges::has_top(regions, class, count as usize, top as usize))?;
    let next = index + 1;
    if next == n {
        layout::TASK_PLACES.set(control, task, places::A1);
    } else {
        layout::TASK_INDEXES.set(control, task, next as u16);
    }
    let offset = table::units(class) * index;
    let unit = limits::REGION_UNITS * region.get() + offset;
    cache::push(control, task, class, unit as u16, count);
    links::write_in_region(area, region, offset, top as u32);
    Ok(Answer::Accepted)
}

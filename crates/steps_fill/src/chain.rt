// Step 4: "Move the taken chain to the cache, one block a step in chain order; after the last, 1."
ghost use Rattle.links.specs.Link.{link};
ghost use Rattle.control.specs.Layout.{seen};
ghost use Rattle.stepped.specs.Done.{AreaOf, DoneIn};
ghost use Rattle.stepped.specs.Allocate.{a4};

use crate::cache;
use classes::{geometry, table};
use control::answer::Answer;
use control::column::Control;
use control::request::Request;
use control::{layout, places};
use limits::index::in_range;
use limits::refusal::Refusal;

// Step 4. Caller: the step of a task at A4.
pub fn step(control: &mut Control, area: &mut [u8], request: Request) -> Result<Answer, Refusal>
    requires { AreaOf request.regions area.old }
    ensures { DoneIn (a4 (seen control.old) (link area.old) request.regions request.task request.class)
        control.old area.old control.new area.new result }
{
    let Request {
        regions,
        task,
        class,
    } = request;
    let n = table::per_region(class);
    let region = regions.region(layout::TASK_REGIONS.get(control, task) as usize)?;
    let index = layout::TASK_INDEXES.get(control, task) as usize;
    in_range(index < n)?;
    let left = layout::TASK_LEFTS.get(control, task);
    in_range(1 <= left)?;
    in_range(left as usize <= n)?;
    let count = layout::CACHE_COUNTS.get_of(control, task, class);
    in_range((count as usize) < n)?;
    let top = layout::CACHE_TOPS.get_of(control, task, class);
    in_range(ranges::has_top(regions, class, count as usize, top as usize))?;
    let unit = geometry::first_unit(region, class, index);
    if left == 1 {
        layout::TASK_PLACES.set(control, task, places::A1);
    } else {
        // The block's own link, the next index of the chain, is read before it is overwritten.
        let next = links::read(area, unit);
        in_range((next as usize) < n)?;
        layout::TASK_INDEXES.set(control, task, next as u16);
        layout::TASK_LEFTS.set(control, task, left - 1);
    }
    cache::push(control, task, class, unit as u16, count);
    links::write(area, unit, top as u32);
    Ok(Answer::Accepted)
}

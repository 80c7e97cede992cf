// Step 3: the anchor is read, and the link of the group's last block is written.
ghost use Rattle.std.specs.Prelude.{ℕ};
ghost use Rattle.links.specs.Link.{link};
ghost use Rattle.control.specs.Layout.{seen};
ghost use Rattle.stepped.specs.Done.{AreaOf, Done, DoneIn};
ghost use Rattle.stepped.specs.Free.{f3_read, f3_link};

use classes::{geometry, table};
use control::answer::Answer;
use control::column::Control;
use control::request::Request;
use control::{layout, places};
use limits::index::{Descriptor, in_range};
use limits::refusal::Refusal;
use words::anchor::Anchor;

// Step 3, the read of the anchor, through the map entry of the group's region: it is noted, if the group can be put
// before the chain. Caller: the step of a task at F3_READ.
#[tactic(auto, unfolding(stepped::specs::Free::f3_read, stepped::specs::Free::f3_read_by, stepped::specs::Free::f3_read_of))]
pub fn read(control: &mut Control, request: Request) -> Result<Answer, Refusal>
    ensures { (link : ℕ → ℕ) → Done (f3_read (seen control.old) link request.regions request.task request.class)
        control.old control.new result }
{
    let Request { task, class, .. } = request;
    let n = table::per_region(class);
    let noted = layout::TASK_REGIONS.get(control, task) as usize;
    let region = request.regions.region(noted)?;
    let group = layout::GROUP_COUNTS.get(control, task) as usize;
    in_range(1 <= group && group <= n)?;
    let entry = layout::MAP_ENTRIES.get(control, region) as usize;
    in_range(1 <= entry)?;
    let descriptor = Descriptor::of(entry - 1)?;
    let word = layout::ANCHORS.get(control, descriptor);
    in_range(ranges::is_anchor(word))?;
    in_range(ranges::has_room(n, group, word))?;
    layout::TASK_PLACES.set(control, task, places::F3_LINK);
    layout::TASK_DESCRIPTORS.set(control, task, descriptor.get() as u8);
    layout::TASK_ANCHORS.set(control, task, word);
    Ok(Answer::Accepted)
}

// Step 3, the last link: that of the group's last block is written to the noted anchor's avail. Caller: the step of a
// task at F3_LINK.
#[tactic(auto, unfolding(stepped::specs::Free::f3_link))]
pub fn write_last(
    control: &mut Control,
    area: &mut [u8],
    request: Request,
) -> Result<Answer, Refusal>
    requires { AreaOf request.regions area.old }
    ensures { DoneIn (f3_link (seen control.old) (link area.old) request.regions request.task request.class)
        control.old area.old control.new area.new result }
{
    let Request { task, class, .. } = request;
    let n = table::per_region(class);
    let noted = layout::TASK_REGIONS.get(control, task) as usize;
    let region = request.regions.region(noted)?;
    let last = layout::GROUP_LASTS.get(control, task) as usize;
    in_range(last < n)?;
    let word = layout::TASK_ANCHORS.get(control, task);
    in_range(ranges::is_anchor(word))?;
    in_range(ranges::has_first(n, word))?;
    let unit = geometry::first_unit(region, class, last);
    links::write(area, unit, Anchor::of(word).avail);
    layout::TASK_PLACES.set(control, task, places::F3_EXCHANGE);
    Ok(Answer::Accepted)
}

// Step 3: "Read the anchor. EMPTY: push the descriptor on the spare list, then 2. Else exchange it for (FULL, n, 0);
// lost: read again."
ghost use Rattle.std.specs.Prelude.{◌≡◌, ℕ};
ghost use Rattle.control.specs.Layout.{seen};
ghost use Rattle.steps_allocate.specs.AnchorWords.{full_word};
ghost use Rattle.stepped.specs.Done.{Done};
ghost use Rattle.stepped.specs.Allocate.{a3_read, a3_exchange};

use classes::table;
use control::answer::Answer;
use control::column::Control;
use control::request::Request;
use control::{layout, losts, places};
use limits::index::{Class, Descriptor, in_range};
use limits::refusal::Refusal;
use words::anchor;
use words::anchor::Anchor;

// The step that reads the anchor. Caller: the step of a task at A3_READ.
pub fn read(control: &mut Control, request: Request) -> Result<Answer, Refusal>
    ensures { (regions : ℕ) (link : ℕ → ℕ) → Done (a3_read (seen control.old) link regions request.task request.class)
        control.old control.new result }
{
    let task = request.task;
    let descriptor = Descriptor::of(layout::TASK_DESCRIPTORS.get(control, task) as usize)?;
    let word = layout::ANCHORS.get(control, descriptor);
    in_range(ranges::is_anchor(word))?;
    if Anchor::of(word).state == anchor::EMPTY {
        layout::TASK_PLACES.set(control, task, places::PUSH_RETIRE);
        return Ok(Answer::Accepted);
    }
    in_range(ranges::has_chain(table::per_region(request.class), word))?;
    layout::TASK_PLACES.set(control, task, places::A3_EXCHANGE);
    layout::TASK_ANCHORS.set(control, task, word);
    Ok(Answer::Accepted)
}

// The word of (FULL, n, 0), n being that of the class. Callers: the steps that take a chain and open a region, whose
// request is of the class.
#[inline(always)]
pub fn full_word(class: Class) -> u64
    ensures { result ≡ full_word class }
{
    Anchor::full(table::per_region(class) as u32).word()
}

// The step that exchanges the anchor. Caller: the step of a task at A3_EXCHANGE.
pub fn exchange(control: &mut Control, request: Request) -> Result<Answer, Refusal>
    ensures { (link : ℕ → ℕ) → Done (a3_exchange (seen control.old) link request.regions request.task request.class)
        control.old control.new result }
{
    let Request {
        regions,
        task,
        class,
    } = request;
    let descriptor = Descriptor::of(layout::TASK_DESCRIPTORS.get(control, task) as usize)?;
    let noted = layout::TASK_ANCHORS.get(control, task);
    in_range(ranges::has_chain(table::per_region(class), noted))?;
    let found = layout::ANCHORS.get(control, descriptor);
    in_range(ranges::is_anchor(found))?;
    if found != noted {
        layout::TASK_PLACES.set(control, task, places::A3_READ);
        losts::count(control, task);
        return Ok(Answer::Accepted);
    }
    let region = layout::DESCRIPTOR_REGIONS.get(control, descriptor);
    regions.region(region as usize)?;
    let chain = Anchor::of(found);
    layout::TASK_PLACES.set(control, task, places::A4);
    layout::ANCHORS.set(control, descriptor, full_word(class));
    layout::TASK_REGIONS.set(control, task, region);
    layout::TASK_INDEXES.set(control, task, chain.avail as u16);
    layout::TASK_LEFTS.set(control, task, chain.count as u16);
    Ok(Answer::Accepted)
}

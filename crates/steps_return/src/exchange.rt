// Step 3: the group is returned to its region's chain, by an exchange of the anchor of the region's descriptor.
ghost use Rattle.std.specs.Prelude.{◌≡◌, true, [], ◌∷◌, ℕ};
ghost use Rattle.fields.specs.Columns.{◌:=◌};
ghost use Rattle.words.specs.Anchor.{anchor_of, Room};
ghost use Rattle.classes.specs.Classes.{per_region};
ghost use Rattle.plain.specs.Moves.{gave};
ghost use Rattle.control.specs.Layout.{seen, Anchor as AnchorField, TaskState};
ghost use Rattle.stepped.specs.Done.{Done};
ghost use Rattle.stepped.specs.Ranges.{is_anchor};
ghost use Rattle.stepped.specs.Lists.{f5};
ghost use Rattle.stepped.specs.Free.{f3_exchange_of, f3_exchange};

use classes::table;
use control::answer::Answer;
use control::column::Control;
use control::request::Request;
use control::{layout, losts, places};
use limits::index::{Descriptor, in_range};
use limits::refusal::Refusal;
use steps_group::group;
use steps_leave::next;
use steps_lists::follow;
use steps_lists::follow::Follow;
use words::anchor::Anchor;

// A won exchange after which the region is not EMPTY stores the anchor and the state before, and goes on by that state:
// step 5, else 6. Caller: `exchange_of`.
fn go_on(
    control: &mut Control,
    request: Request,
    descriptor: Descriptor,
    anchor: u64,
    state: u8,
) -> Result<Answer, Refusal>
    ensures { Done
        (f5 (seen control.old) request.regions request.task request.class state (gave descriptor)
        (AnchorField descriptor := anchor ∷ TaskState request.task := state ∷ []))
        control.old control.new result }
{
    let Request { task, class, .. } = request;
    match follow::f5(control, task, class, state as u32)? {
        Follow::One => layout::TASK_PLACES.set(control, task, places::F1),
        Follow::Leave => next::go(control, task, class.get() + 1)?,
        Follow::Two => group::begin(control, task),
        Follow::Offer => layout::TASK_PLACES.set(control, task, places::PUSH_OFFER),
    }
    layout::ANCHORS.set(control, descriptor, anchor);
    layout::TASK_STATES.set(control, task, state);
    Ok(Answer::Accepted)
}

// The exchange: won where the anchor is the noted one, else the anchor is read again. A won one leads to step 4 if the
// region is now EMPTY, else by the state before. Caller: `exchange`, which has tested the descriptor and the noted
// anchor, and that this one has room for the group. So an anchor that is the noted one needs no test of its own. It
// takes the numbers one by one, and is put in line: a struct that it is handed, and the Result that it hands back, would
// lie in memory.
#[tactic(auto, unfolding(stepped::specs::Free::f3_exchange_of, stepped::specs::Free::f3_won))]
#[inline(always)]
fn exchange_of(
    control: &mut Control,
    request: Request,
    descriptor: Descriptor,
    word: u64,
    first: u16,
    group: u16,
) -> Result<Answer, Refusal>
    requires { Room (anchor_of word) group (per_region request.class) × (is_anchor word ≡ true) }
    ensures { (link : ℕ → ℕ)
        → Done (f3_exchange_of (seen control.old) link request.regions request.task request.class
        descriptor word first group)
        control.old control.new result }
{
    let Request { task, class, .. } = request;
    let current = layout::ANCHORS.get(control, descriptor);
    if current != word {
        in_range(ranges::is_anchor(current))?;
        layout::TASK_PLACES.set(control, task, places::F3_READ);
        losts::count(control, task);
        return Ok(Answer::Accepted);
    }
    let n = table::per_region(class) as u32;
    let noted = Anchor::of(word);
    let next = noted.returned(first as u32, group as u32, n).word();
    let state = noted.state as u8;
    if noted.count + (group as u32) != n {
        return go_on(control, request, descriptor, next, state);
    }
    layout::TASK_PLACES.set(control, task, places::F4_CLEAR);
    layout::ANCHORS.set(control, descriptor, next);
    layout::TASK_STATES.set(control, task, state);
    Ok(Answer::Accepted)
}

// Step 3, the exchange. Caller: the step of a task at F3_EXCHANGE.
#[tactic(auto, unfolding(stepped::specs::Free::f3_exchange))]
pub fn exchange(control: &mut Control, request: Request) -> Result<Answer, Refusal>
    ensures { (link : ℕ → ℕ) → Done (f3_exchange (seen control.old) link request.regions request.task request.class)
        control.old control.new result }
{
    let Request { task, class, .. } = request;
    let n = table::per_region(class);
    let noted = layout::TASK_DESCRIPTORS.get(control, task) as usize;
    let descriptor = Descriptor::of(noted)?;
    let first = layout::GROUP_FIRSTS.get(control, task);
    in_range((first as usize) < n)?;
    let group = layout::GROUP_COUNTS.get(control, task);
    in_range(1 <= group && group as usize <= n)?;
    let word = layout::TASK_ANCHORS.get(control, task);
    in_range(ranges::is_anchor(word))?;
    in_range(ranges::has_room(n, group as usize, word))?;
    exchange_of(control, request, descriptor, word, first, group)
}

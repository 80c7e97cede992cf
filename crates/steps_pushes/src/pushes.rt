// The steps of a push: read the head, write the item's next, exchange. The caller is the step of a call that has tested
// its memories and its task; the place tells the reason.
ghost use Rattle.std.specs.Prelude.{[], ◌∷◌, ℕ};
ghost use Rattle.fields.specs.Columns.{◌:=◌};
ghost use Rattle.plain.specs.Moves.{Decided};
ghost use Rattle.control.specs.Layout.{seen, Head};
ghost use Rattle.stepped.specs.Done.{Done};
ghost use Rattle.stepped.specs.Lists.{push_read, push_next, when_pushed, push_exchange};
ghost use Rattle.steps_lists.specs.Following.{following};

use control::answer::Answer;
use control::column::Control;
use control::moves::Push;
use control::request::Request;
use control::{layout, places};
use limits::index::{List, in_range};
use limits::refusal::Refusal;
use steps_leave::next;
use steps_lists::follow::Follow;
use steps_lists::reason::ListMove;
use steps_lists::{follow, heads, shared};
use words::anchor;

// Notes the head.
#[tactic(auto, unfolding(stepped::specs::Lists::push_read))]
pub fn read(control: &mut Control, request: Request, push: Push) -> Result<Answer, Refusal>
    ensures { Done (push_read (seen control.old) request.regions request.task request.class push)
        control.old control.new result }
{
    let word = layout::HEADS.get(control, push.list(request.class));
    push.items().on_top(word, request.regions)?;
    shared::note(control, request.task, push, word);
    Ok(Answer::Accepted)
}

// Writes the item's next: the item on top of the noted head. The class of the request does not matter.
#[tactic(auto, unfolding(stepped::specs::Lists::push_next))]
pub fn next(control: &mut Control, request: Request, push: Push) -> Result<Answer, Refusal>
    ensures { (class : ℕ) → Done (push_next (seen control.old) request.regions request.task class push)
        control.old control.new result }
{
    let items = push.items();
    let item = items.in_hand(control, request.task, request.regions)?;
    let noted = layout::TASK_HEADS.get(control, request.task);
    let below = items.on_top(noted, request.regions)?;
    layout::TASK_PLACES.set(control, request.task, push.place() + places::TO_EXCHANGE);
    items.set_next(control, item, below as u8);
    Ok(Answer::Accepted)
}

// The writes of a won push of a return, by where it goes on. A value outside its range is refused before any write.
fn go_on(
    control: &mut Control,
    request: Request,
    follow: Follow,
    list: List,
    word: u64,
) -> Result<Answer, Refusal>
    ensures { (e : Decided)
        → Done (following (seen control.old) follow request.task request.class e (Head list := word ∷ []))
        control.old control.new result }
{
    match follow {
        Follow::One => layout::TASK_PLACES.set(control, request.task, places::F1),
        Follow::Leave => next::go(control, request.task, request.class.get() + 1)?,
        Follow::Two => {
            layout::TASK_PLACES.set(control, request.task, places::F2);
            layout::GROUP_COUNTS.set(control, request.task, 0);
        }
        Follow::Offer => layout::TASK_PLACES.set(control, request.task, places::PUSH_OFFER),
    }
    layout::HEADS.set(control, list, word);
    Ok(Answer::Accepted)
}

// The writes of a won push, and where it leads; `word` is the list's new head.
fn won(
    control: &mut Control,
    request: Request,
    push: Push,
    list: List,
    word: u64,
) -> Result<Answer, Refusal>
    ensures { (e : Decided) → Done
        (when_pushed (seen control.old) request.regions request.task request.class push e (Head list := word ∷ []))
        control.old control.new result }
{
    match push {
        Push::Retire => {
            layout::TASK_PLACES.set(control, request.task, places::POP_PARTIAL);
            layout::HEADS.set(control, list, word);
            Ok(Answer::Accepted)
        }
        Push::Back => {
            layout::TASK_PLACES.set(control, request.task, places::IDLE);
            layout::HEADS.set(control, list, word);
            Ok(Answer::NoRegion)
        }
        Push::Release => {
            let state = layout::TASK_STATES.get(control, request.task) as u32;
            in_range(state <= anchor::FULL)?;
            let follow = follow::f5(control, request.task, request.class, state)?;
            go_on(control, request, follow, list, word)
        }
        Push::Offer => {
            let follow = follow::f6(control, request.task, request.class)?;
            go_on(control, request, follow, list, word)
        }
    }
}

// Exchanges the head for the item: won where the head word is the noted one, its tag with it.
#[tactic(auto, unfolding(stepped::specs::Lists::push_exchange))]
pub fn exchange(control: &mut Control, request: Request, push: Push) -> Result<Answer, Refusal>
    ensures { Done (push_exchange (seen control.old) request.regions request.task request.class push)
        control.old control.new result }
{
    let items = push.items();
    let item = items.in_hand(control, request.task, request.regions)?;
    let noted = layout::TASK_HEADS.get(control, request.task);
    items.on_top(noted, request.regions)?;
    let list = push.list(request.class);
    let word = layout::HEADS.get(control, list);
    items.on_top(word, request.regions)?;
    if word != noted {
        shared::lose(control, request.task, push);
        return Ok(Answer::Accepted);
    }
    won(
        control,
        request,
        push,
        list,
        heads::advanced(noted, (item + 1) as u32),
    )
}

// The steps of a pop: read the head, read the item's next, exchange. The caller is the step of a call that has tested
// its memories and its task; the place tells the reason.
ghost use Rattle.std.specs.Prelude.{ℕ};
ghost use Rattle.control.specs.Layout.{seen};
ghost use Rattle.stepped.specs.Done.{Done};
ghost use Rattle.stepped.specs.Lists.{pop_read, pop_next, pop_exchange};

use control::answer::Answer;
use control::column::Control;
use control::moves::Pop;
use control::request::Request;
use control::{layout, places};
use limits::index::in_range;
use limits::refusal::Refusal;
use steps_lists::reason::ListMove;
use steps_lists::{heads, reason, shared};

// Notes the head, or finds the list empty.
#[tactic(auto, unfolding(stepped::specs::Lists::pop_read))]
pub fn read(control: &mut Control, request: Request, pop: Pop) -> Result<Answer, Refusal>
    ensures { Done (pop_read (seen control.old) request.regions request.task request.class pop)
        control.old control.new result }
{
    let word = layout::HEADS.get(control, pop.list(request.class));
    if heads::item_of(word) == 0 {
        layout::TASK_PLACES.set(control, request.task, reason::empty_place(pop));
        return Ok(reason::empty_answer(pop));
    }
    pop.items().on_top(word, request.regions)?;
    shared::note(control, request.task, pop, word);
    Ok(Answer::Accepted)
}

// Reads the next of the item on top of the noted head. The class of the request does not matter.
#[tactic(auto, unfolding(stepped::specs::Lists::pop_next, stepped::specs::Lists::pop_next_of))]
pub fn next(control: &mut Control, request: Request, pop: Pop) -> Result<Answer, Refusal>
    ensures { (class : ℕ) → Done (pop_next (seen control.old) request.regions request.task class pop)
        control.old control.new result }
{
    let items = pop.items();
    let noted = layout::TASK_HEADS.get(control, request.task);
    let item = items.top(noted, request.regions)?;
    let below = items.next(control, item);
    in_range(below as usize <= items.most(request.regions))?;
    layout::TASK_PLACES.set(control, request.task, pop.place() + places::TO_EXCHANGE);
    layout::TASK_NEXTS.set(control, request.task, below);
    Ok(Answer::Accepted)
}

// Exchanges the head for the item's next: won where the head word is the noted one, its tag with it.
#[tactic(auto, unfolding(stepped::specs::Lists::pop_exchange))]
pub fn exchange(control: &mut Control, request: Request, pop: Pop) -> Result<Answer, Refusal>
    ensures { Done (pop_exchange (seen control.old) request.regions request.task request.class pop)
        control.old control.new result }
{
    let items = pop.items();
    let noted = layout::TASK_HEADS.get(control, request.task);
    let item = items.top(noted, request.regions)?;
    let next = layout::TASK_NEXTS.get(control, request.task);
    in_range(next as usize <= items.most(request.regions))?;
    let list = pop.list(request.class);
    let word = layout::HEADS.get(control, list);
    items.on_top(word, request.regions)?;
    if word != noted {
        shared::lose(control, request.task, pop);
        return Ok(Answer::Accepted);
    }
    layout::TASK_PLACES.set(control, request.task, reason::popped_place(pop));
    items.hold(control, request.task, item as u8);
    layout::HEADS.set(control, list, heads::advanced(noted, next as u32));
    Ok(Answer::Accepted)
}

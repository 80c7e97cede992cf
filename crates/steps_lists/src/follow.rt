// Where a return goes on, for a free or for leaving: steps 5 and 6, which a won exchange takes along. The callers are
// the step that exchanges an anchor and the steps that win a push of a return.
ghost use Rattle.std.specs.Prelude.{◌≡◌};
ghost use Rattle.control.specs.Layout.{seen};
ghost use Rattle.steps_lists.specs.Following.{returned_follow, f6_follow, f5_follow};

use classes::table;
use control::column::Control;
use control::layout;
use limits::index::{Class, OutOfRange, Task, in_range};
use words::anchor;

#[derive(Clone, Copy)]
pub enum Follow {
    // Step 1: the cache is empty and has room for the block that is freed.
    One,
    // The cache is empty, and the task leaves: the next cache that is not empty is due.
    Leave,
    // Step 2, with a new group: the cache has blocks left.
    Two,
    // Step 5: the descriptor was FULL and is pushed on the partial list.
    Offer,
}

// The cache is empty: the task's unit tells whether it frees a block or leaves. Caller: `f6`.
#[tactic(auto, unfolding(crate::specs::Following::returned_follow))]
fn returned(control: &Control, task: Task) -> Result<Follow, OutOfRange>
    ensures { result ≡ returned_follow (seen control.now) task }
{
    let unit = layout::TASK_UNITS.get(control, task);
    if unit < layout::LEAVING {
        return Ok(Follow::One);
    }
    in_range(unit == layout::LEAVING)?;
    Ok(Follow::Leave)
}

// Step 6: the cache tells whether another group is due. An empty one is asked for first, since its count needs no look
// at the class.
#[tactic(auto, unfolding(crate::specs::Following::f6_follow))]
pub fn f6(control: &Control, task: Task, class: Class) -> Result<Follow, OutOfRange>
    ensures { result ≡ f6_follow (seen control.now) task class }
{
    let count = layout::CACHE_COUNTS.get_of(control, task, class) as usize;
    if count == 0 {
        return returned(control, task);
    }
    in_range(count <= table::per_region(class))?;
    Ok(Follow::Two)
}

// Step 5, for an anchor that was found in this state; else step 6.
#[tactic(auto, unfolding(crate::specs::Following::f5_follow))]
pub fn f5(control: &Control, task: Task, class: Class, state: u32) -> Result<Follow, OutOfRange>
    ensures { result ≡ f5_follow (seen control.now) task class state }
{
    if state == anchor::FULL {
        return Ok(Follow::Offer);
    }
    f6(control, task, class)
}

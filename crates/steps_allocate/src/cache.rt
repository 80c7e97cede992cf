// Step 1: "If the cache has a block, take the top, set its mark and finish. Else go on."
ghost use Rattle.std.specs.Prelude.{◌≡◌, Ok, [], ◌∷◌, ◌/◌, ◌%◌, ◌<◌};
ghost use Rattle.limits.specs.Limits.{UNITS, WORD_MARKS};
ghost use Rattle.fields.specs.Columns.{◌:=◌};
ghost use Rattle.links.specs.Link.{link};
ghost use Rattle.words.specs.Mark.{with_set};
ghost use Rattle.plain.specs.Moves.{nothing};
ghost use Rattle.control.specs.Layout.{seen, Marks, CacheTop, CacheCount, TaskPlace};
ghost use Rattle.control.specs.Places.{IDLE};
ghost use Rattle.control.specs.Answers.{Allocated};
ghost use Rattle.stepped.specs.Outcome.{over};
ghost use Rattle.stepped.specs.Done.{AreaOf, Done};
ghost use Rattle.stepped.specs.Allocate.{a1};

use classes::table;
use control::answer::Answer;
use control::column::Control;
use control::request::Request;
use control::{layout, places};
use limits::index::{Class, Index, Task, in_range};
use limits::refusal::Refusal;
use words::mark;

// Finishes the allocation with the block at `unit`, the top of a cache in which `left` blocks are left, the topmost at
// `below`. Caller: `take`, which has tested the units.
fn finish(
    control: &mut Control,
    task: Task,
    class: Class,
    unit: u16,
    left: u16,
    below: u16,
) -> Answer
    requires { unit < UNITS }
    ensures { Done (over (Allocated unit) nothing
        (TaskPlace task := IDLE ∷ CacheTop task class := below ∷ CacheCount task class := left
        ∷ Marks (unit / WORD_MARKS)
        := with_set (seen control.old (Marks (unit / WORD_MARKS))) (unit % WORD_MARKS) ∷ []) [])
        control.old control.new (Ok result) }
{
    let word = Index::new(unit as usize / limits::WORD_MARKS);
    let bit = unit as usize % limits::WORD_MARKS;
    let marks = mark::set(layout::UNIT_MARKS.get(control, word), bit as u32);
    layout::TASK_PLACES.set(control, task, places::IDLE);
    layout::CACHE_TOPS.set_of(control, task, class, below);
    layout::CACHE_COUNTS.set_of(control, task, class, left);
    layout::UNIT_MARKS.set(control, word, marks);
    Answer::Allocated(unit)
}

// Step 1. Caller: the step of a task at A1.
pub fn take(control: &mut Control, area: &[u8], request: Request) -> Result<Answer, Refusal>
    requires { AreaOf request.regions area.now }
    ensures { Done (a1 (seen control.old) (link area.now) request.regions request.task request.class)
        control.old control.new result }
{
    let Request {
        regions,
        task,
        class,
    } = request;
    let count = layout::CACHE_COUNTS.get_of(control, task, class);
    let Some(left) = count.checked_sub(1) else {
        layout::TASK_PLACES.set(control, task, places::POP_PARTIAL);
        return Ok(Answer::Accepted);
    };
    in_range(count as usize <= table::per_region(class))?;
    let unit = layout::CACHE_TOPS.get_of(control, task, class);
    in_range(ranges::has_block(regions, class, unit as usize))?;
    let below = links::read(area, unit as usize);
    in_range(ranges::has_top(regions, class, left as usize, below as usize))?;
    Ok(finish(control, task, class, unit, left, below as u16))
}

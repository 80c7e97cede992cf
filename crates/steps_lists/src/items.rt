// The items of the lists, descriptors or regions: how many there are, their nexts, and those that a task has in hand.
// The callers are the steps of the list moves, which have tested the item against the number of items.
use crate::heads;
use control::column::Control;
use control::layout;
use limits::index::{Descriptor, OutOfRange, Region, RegionCount, Task, in_range};

// What the items of a list are.
#[derive(Clone, Copy)]
pub enum Items {
    Descriptors,
    Regions,
}

impl Items {
    ghost use Rattle.std.specs.Prelude.{◌≡◌, ◌-◌, ◌<◌, ◌≤◌, true, false, [], ◌∷◌, OnOk, OnErr, IfOk};
    ghost use Rattle.limits.specs.Limits.{REGIONS};
    ghost use Rattle.fields.specs.Columns.{◌:=◌};
    ghost use Rattle.words.specs.Head.{item_of};
    ghost use Rattle.control.specs.Layout.{seen, changed};
    ghost use Rattle.stepped.specs.Lists.{how_many, next_field, hand_field};
    ghost use Rattle.stepped.specs.Ranges.{one_to};
    ghost use Rattle.steps_lists.specs.Kinds.{kind};

    // The most that an item's number plus one may be: how many items there are, no more than with the most regions.
    pub fn most(self, regions: RegionCount) -> usize
        ensures same { result ≡ how_many (kind self) regions }
        ensures inside { result ≤ how_many (kind self) REGIONS }
    {
        match self {
            Items::Descriptors => limits::DESCRIPTORS,
            Items::Regions => regions.get(),
        }
    }

    // The number plus one of the item on top of a head word, 0 for none, if there is such an item.
    pub fn on_top(self, word: u64, regions: RegionCount) -> Result<usize, OutOfRange>
        ensures found { IfOk result (λ item. item ≡ item_of word) }
        ensures inside { OnOk result (item_of word ≤ how_many (kind self) regions) }
        ensures below { OnOk result (item_of word ≤ how_many (kind self) REGIONS) }
        ensures outside { OnErr result (how_many (kind self) regions < item_of word) }
    {
        let item = heads::item_of(word);
        in_range(item <= self.most(regions))?;
        Ok(item)
    }

    // The item on top of a head word, if it has one.
    pub fn top(self, word: u64, regions: RegionCount) -> Result<usize, OutOfRange>
        ensures found { IfOk result (λ item. item ≡ item_of word - 1) }
        ensures inside { OnOk result (one_to (how_many (kind self) regions) (item_of word) ≡ true) }
        ensures within { OnOk result (item_of word - 1 < how_many (kind self) REGIONS) }
        ensures outside { OnErr result (one_to (how_many (kind self) regions) (item_of word) ≡ false) }
    {
        self.on_top(word, regions)?.checked_sub(1).ok_or(OutOfRange)
    }

    // The next of an item.
    pub fn next(self, control: &Control, item: usize) -> u8
        requires { item < how_many (kind self) REGIONS }
        ensures { result ≡ seen control.now (next_field (kind self) item) }
    {
        match self {
            Items::Descriptors => layout::DESCRIPTOR_NEXTS.get(control, Descriptor::new(item)),
            Items::Regions => layout::REGION_NEXTS.get(control, Region::new(item)),
        }
    }

    // Writes the next of an item.
    pub fn set_next(self, control: &mut Control, item: usize, next: u8)
        requires { item < how_many (kind self) REGIONS }
        ensures { control.new ≡ changed (next_field (kind self) item := next ∷ []) control.old }
    {
        match self {
            Items::Descriptors => layout::DESCRIPTOR_NEXTS.set(
                control,
                Descriptor::new(item),
                next,
            ),
            Items::Regions => layout::REGION_NEXTS.set(control, Region::new(item), next),
        }
    }

    // The number of the item that the task has in hand, as it is noted. Caller: `in_hand`.
    fn held(self, control: &Control, task: Task) -> u8
        ensures { result ≡ seen control.now (hand_field (kind self) task) }
    {
        match self {
            Items::Descriptors => layout::TASK_DESCRIPTORS.get(control, task),
            Items::Regions => layout::TASK_REGIONS.get(control, task),
        }
    }

    // The item that the task has in hand, if there is such an item.
    pub fn in_hand(
        self,
        control: &Control,
        task: Task,
        regions: RegionCount,
    ) -> Result<usize, OutOfRange>
        ensures found { IfOk result (λ item. item ≡ seen control.now (hand_field (kind self) task)) }
        ensures inside { OnOk result (seen control.now (hand_field (kind self) task) < how_many (kind self) regions) }
        ensures below { OnOk result (seen control.now (hand_field (kind self) task) < how_many (kind self) REGIONS) }
        ensures outside { OnErr result (how_many (kind self) regions ≤ seen control.now (hand_field (kind self) task)) }
    {
        let item = self.held(control, task) as usize;
        in_range(item < self.most(regions))?;
        Ok(item)
    }

    // Notes an item in the task's hand.
    pub fn hold(self, control: &mut Control, task: Task, item: u8)
        ensures { control.new ≡ changed (hand_field (kind self) task := item ∷ []) control.old }
    {
        match self {
            Items::Descriptors => layout::TASK_DESCRIPTORS.set(control, task, item),
            Items::Regions => layout::TASK_REGIONS.set(control, task, item),
        }
    }
}

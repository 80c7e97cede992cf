// What the reason of a list move decides: its list, what the items are, its first place and where it leads. The callers
// are the steps of the list moves.
ghost use Rattle.std.specs.Prelude.{◌≡◌, Ok};
ghost use Rattle.control.specs.Answers.{answer_of};
ghost use Rattle.steps_lists.specs.Reasons.{empty_place, empty_answer, popped_place};

use crate::items::Items;
use control::answer::Answer;
use control::moves::{Pop, Push};
use control::places;
use limits::index::{Class, List};

// A pop or a push, by its reason.
pub trait ListMove: Copy {
    ghost use Rattle.std.specs.Prelude.{ℕ, ◌≤◌};
    ghost use Rattle.control.specs.Places.{PUSH_OFFER};
    ghost use Rattle.stepped.specs.Lists.{Items};
    ghost use Rattle.steps_lists.specs.Kinds.{kind};

    // Its list, for a request of a class.
    ghost list: { Self → ℕ → ℕ };

    // What the items of its list are.
    ghost items: { Self → Items };

    // The place of its head read.
    ghost place: { Self → ℕ };

    // The list that is popped or pushed on.
    fn list(self, class: Class) -> List
        ensures { result ≡ list self class };

    // What the items of the list are.
    fn items(self) -> Items
        ensures { kind result ≡ items self };

    // The place of the head read; the other two steps follow it.
    fn place(self) -> u8
        ensures same { result ≡ place self }
        ensures inside { result ≤ PUSH_OFFER };
}

impl ListMove for Pop {
    ghost use Rattle.stepped.specs.Lists.{pop_list, pop_items, pop_place};

    ghost list = { pop_list };

    ghost items = { pop_items };

    ghost place = { pop_place };

    fn list(self, class: Class) -> List {
        match self {
            Pop::Partial => List::new(class.get()),
            Pop::Spare => List::new(limits::SPARE_DESCRIPTORS),
            Pop::Region => List::new(limits::SPARE_REGIONS),
        }
    }

    fn items(self) -> Items {
        match self {
            Pop::Partial => Items::Descriptors,
            Pop::Spare => Items::Descriptors,
            Pop::Region => Items::Regions,
        }
    }

    fn place(self) -> u8 {
        match self {
            Pop::Partial => places::POP_PARTIAL,
            Pop::Spare => places::POP_SPARE,
            Pop::Region => places::POP_REGION,
        }
    }
}

impl ListMove for Push {
    ghost use Rattle.stepped.specs.Lists.{push_list, push_items, push_place};

    ghost list = { push_list };

    ghost items = { push_items };

    ghost place = { push_place };

    fn list(self, class: Class) -> List {
        match self {
            Push::Retire => List::new(limits::SPARE_DESCRIPTORS),
            Push::Back => List::new(limits::SPARE_DESCRIPTORS),
            Push::Release => List::new(limits::SPARE_REGIONS),
            Push::Offer => List::new(class.get()),
        }
    }

    fn items(self) -> Items {
        match self {
            Push::Retire => Items::Descriptors,
            Push::Back => Items::Descriptors,
            Push::Release => Items::Regions,
            Push::Offer => Items::Descriptors,
        }
    }

    fn place(self) -> u8 {
        match self {
            Push::Retire => places::PUSH_RETIRE,
            Push::Back => places::PUSH_BACK,
            Push::Release => places::PUSH_RELEASE,
            Push::Offer => places::PUSH_OFFER,
        }
    }
}

// Where an empty list leads: no partial descriptor, a spare one is popped; no spare descriptor, the request ends; no
// spare region, the descriptor is pushed back.
pub fn empty_place(pop: Pop) -> u8
    ensures { result ≡ empty_place pop }
{
    match pop {
        Pop::Partial => places::POP_SPARE,
        Pop::Spare => places::IDLE,
        Pop::Region => places::PUSH_BACK,
    }
}

// What is answered on an empty list.
pub fn empty_answer(pop: Pop) -> Answer
    ensures { answer_of (Ok result) ≡ empty_answer pop }
{
    match pop {
        Pop::Partial => Answer::Accepted,
        Pop::Spare => Answer::NoDescriptor,
        Pop::Region => Answer::Accepted,
    }
}

// Where a won exchange leads: the anchor is read, a region is popped, or the region is opened.
pub fn popped_place(pop: Pop) -> u8
    ensures { result ≡ popped_place pop }
{
    match pop {
        Pop::Partial => places::A3_READ,
        Pop::Spare => places::POP_REGION,
        Pop::Region => places::A7,
    }
}

// A column of the control memory: numbers of one type, one behind the other.
ghost use Rattle.std.specs.Prelude.{◌≡◌, ◌+◌, ◌*◌, [], ◌∷◌};
ghost use Rattle.fields.specs.Columns.{◌:=◌};
ghost use Rattle.control.specs.Layout.{CACHES_OF_TASK, field_at, seen, changed, IsColumn};

use crate::layout::{CACHES, CACHES_OF_TASK};
use fields::Number;
use limits::index::{Class, Index, Task};
use std::marker::PhantomData;

// The control memory.
pub type Control = [u8; limits::CONTROL_BYTES];

// N numbers of the type, from the byte `start` on, as in a line of the layout.
#[derive(Drop)]
pub struct Column<T: Number, const N: usize> {
    pub start: usize,
    pub of: PhantomData<T>,
    ghost is_column: { IsColumn start T.width N },
}

impl<T: Number, const N: usize> Column<T, N> {
    // The number that stands in the field of this index.
    pub fn get(&self, control: &Control, index: Index<N>) -> T
        ensures { T.value result ≡ seen control.now (field_at self.now.start index.entry) }
    {
        T::load(control, self.start + index.get() * T::WIDTH)
    }

    // Writes the number into the field of this index.
    pub fn set(&self, control: &mut Control, index: Index<N>, value: T)
        ensures { control.new ≡ changed (field_at self.now.start index.entry := T.value value ∷ []) control.old }
    {
        value.store(control, self.start + index.get() * T::WIDTH);
    }
}

// A column of the started numbers, of which there is one each.
impl<T: Number> Column<T, 1> {
    pub fn get_only(&self, control: &Control) -> T
        ensures { T.value result ≡ seen control.now (field_at self.now.start 0) }
    {
        self.get(control, Index::new(0))
    }

    pub fn set_only(&self, control: &mut Control, value: T)
        ensures { control.new ≡ changed (field_at self.now.start 0 := T.value value ∷ []) control.old }
    {
        self.set(control, Index::new(0), value);
    }
}

// Where the cache of a task for a class stands in a column of the caches.
fn cache(task: Task, class: Class) -> Index<CACHES>
    ensures { result ≡ CACHES_OF_TASK * task + class }
{
    Index::new(CACHES_OF_TASK * task.get() + class.get())
}

// A column of the caches, which stand task by task.
impl<T: Number> Column<T, CACHES> {
    pub fn get_of(&self, control: &Control, task: Task, class: Class) -> T
        ensures { T.value result ≡ seen control.now (field_at self.now.start (CACHES_OF_TASK * task + class)) }
    {
        self.get(control, cache(task, class))
    }

    pub fn set_of(&self, control: &mut Control, task: Task, class: Class, value: T)
        ensures { control.new ≡ changed
            (field_at self.now.start (CACHES_OF_TASK * task + class) := T.value value ∷ []) control.old }
    {
        self.set(control, cache(task, class), value);
    }
}

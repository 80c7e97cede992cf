// Numbers that lie in a range, by type: whoever has one need not ask for the range again.
ghost use Rattle.std.specs.Prelude.{◌≡◌, true, false, ◌<◌, ◌≤◌, IfOk, OnOk, OnErr};
ghost use Rattle.limits.specs.Limits.{REGIONS};

use std::marker::Model;

// A value that was read is out of its range.
#[derive(Clone, Copy, Debug, PartialEq, Eq)]
pub struct OutOfRange;

// The index of one of N things: a number below N.
#[derive(Clone, Copy)]
pub struct Index<const N: usize> {
    number: usize,
}

impl<const N: usize> Model for Index<N> {
    ghost use Rattle.std.specs.Prelude.{ℕ, ◌<◌};

    ghost Value = { ℕ };

    ghost view = { λ a. a.number };

    ghost invariant = { λ a. a.number < N };

    ghost inverse = { λ n. record { number = n } };
}

pub type Task = Index<{ crate::TASKS }>;

pub type Class = Index<{ crate::CLASSES }>;

pub type Region = Index<{ crate::REGIONS }>;

pub type Descriptor = Index<{ crate::DESCRIPTORS }>;

pub type Slot = Index<{ crate::SLOTS }>;

pub type List = Index<{ crate::LISTS }>;

// The order of a strip.
pub type Order = Index<{ crate::ORDERS }>;

impl<const N: usize> Index<N> {
    // The index of this number, which the caller knows to be one.
    pub fn new(number: usize) -> Index<N>
        requires { number < N }
        ensures { result ≡ number }
    {
        Index { number }
    }

    // The index of this number, if it is one.
    pub fn of(number: usize) -> Result<Index<N>, OutOfRange>
        ensures found { IfOk result (λ i. i ≡ number) }
        ensures inside { OnOk result (number < N) }
        ensures outside { OnErr result (N ≤ number) }
    {
        if number < N {
            return Ok(Index { number });
        }
        Err(OutOfRange)
    }

    pub fn get(self) -> usize
        ensures same { result ≡ self.entry }
        ensures inside { result < N }
    {
        self.number
    }
}

// How many regions, at most as many as the largest area has: 0, too.
#[derive(Clone, Copy)]
pub struct RegionCount {
    number: usize,
}

impl Model for RegionCount {
    ghost use Rattle.std.specs.Prelude.{ℕ, ◌≤◌};
    ghost use Rattle.limits.specs.Limits.{REGIONS};

    ghost Value = { ℕ };

    ghost view = { λ a. a.number };

    ghost invariant = { λ a. a.number ≤ REGIONS };

    ghost inverse = { λ n. record { number = n } };
}

impl RegionCount {
    // So many regions, which the caller knows to be no more than the largest area has.
    pub fn new(number: usize) -> RegionCount
        requires { number ≤ REGIONS }
        ensures { result ≡ number }
    {
        RegionCount { number }
    }

    pub fn get(self) -> usize
        ensures same { result ≡ self }
        ensures inside { result ≤ REGIONS }
    {
        self.number
    }

    // The region of this number, if it is one of so many.
    pub fn region(self, number: usize) -> Result<Region, OutOfRange>
        ensures found { IfOk result (λ z. z ≡ number) }
        ensures inside { OnOk result (number < self) }
        ensures outside { OnErr result (self ≤ number) }
    {
        if self.number <= number {
            return Err(OutOfRange);
        }
        Ok(Index { number })
    }
}

// How many regions the area of a started pool has, at least one.
#[derive(Clone, Copy)]
pub struct Regions {
    number: usize,
}

impl Model for Regions {
    ghost use Rattle.std.specs.Prelude.{ℕ, ◌≤◌};
    ghost use Rattle.limits.specs.Limits.{REGIONS};

    ghost Value = { ℕ };

    ghost view = { λ a. a.number };

    ghost invariant = { λ a. (1 ≤ a.number) × (a.number ≤ REGIONS) };

    ghost inverse = { λ n. record { number = n } };
}

impl Regions {
    // So many regions, if the area can have so many.
    pub fn of(number: usize) -> Result<Regions, OutOfRange>
        ensures found { IfOk result (λ r. r ≡ number) }
        ensures inside { OnOk result ((1 ≤ number) × (number ≤ REGIONS)) }
        ensures outside { OnErr result (1 ≤ number → REGIONS < number) }
    {
        if number < 1 {
            return Err(OutOfRange);
        }
        if crate::REGIONS < number {
            return Err(OutOfRange);
        }
        Ok(Regions { number })
    }

    // The same number, for a function that takes 0, too.
    pub fn count(self) -> RegionCount
        ensures { result ≡ self }
    {
        RegionCount::new(self.number)
    }

    pub fn get(self) -> usize
        ensures same { result ≡ self }
        ensures inside { (1 ≤ result) × (result ≤ REGIONS) }
    {
        self.count().get()
    }

    // The region of this number, if the area has it.
    pub fn region(self, number: usize) -> Result<Region, OutOfRange>
        ensures found { IfOk result (λ z. z ≡ number) }
        ensures inside { OnOk result (number < self) }
        ensures outside { OnErr result (self ≤ number) }
    {
        self.count().region(number)
    }
}

// Goes on where the test of a value's range has passed.
pub fn in_range(test: bool) -> Result<(), OutOfRange>
    ensures passed { OnOk result (test ≡ true) }
    ensures failed { OnErr result (test ≡ false) }
{
    if test {
        return Ok(());
    }
    Err(OutOfRange)
}

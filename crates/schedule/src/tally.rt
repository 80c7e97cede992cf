// The tally: how many records had the code 20, the code 0, and another.
ghost use Rattle.std.specs.Prelude.{◌≡◌};
ghost use Rattle.schedule.specs.Tally.{counted};

#[derive(Clone, Copy, Default)]
pub struct Tally {
    pub finished: u64,
    pub accepted: u64,
    pub others: u64,
}

impl Tally {
    // The tally with one more record of this code.
    #[tactic(auto, unfolding(crate::specs::Tally::counted))]
    pub fn counted(self, code: u64) -> Tally
        ensures { result ≡ counted self code }
    {
        match code {
            20 => Tally {
                finished: self.finished.wrapping_add(1),
                ..self
            },
            0 => Tally {
                accepted: self.accepted.wrapping_add(1),
                ..self
            },
            _ => Tally {
                others: self.others.wrapping_add(1),
                ..self
            },
        }
    }

    // Counts one more record of this code in the tally that is lent.
    pub fn count(&mut self, code: u64)
        ensures { self.new ≡ counted self.old code }
    {
        *self = self.counted(code);
    }
}

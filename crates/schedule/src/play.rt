// A whole schedule, for whoever asks what it leaves and how it ended.
ghost use Rattle.std.specs.Prelude.{◌≤◌, length};
ghost use Rattle.schedule.specs.Records.{INPUT_BYTES};
ghost use Rattle.schedule.specs.Bytes.{PlaysAll};

use crate::records::Records;
use crate::stand::Stand;

impl<'a> Stand<'a> {
    // Has the records treated one after the other, up to the end of the input or the first bad one. It answers as the
    // last of them, 0 where there is none.
    pub fn play(&mut self, input: &[u8]) -> u64
        requires { length input.now ≤ INPUT_BYTES }
        ensures { PlaysAll input.now self.old self.new result }
    {
        let mut answer = 0;
        for entry in Records::of(input) {
            answer = self.treat(entry.body);
        }
        answer
    }
}

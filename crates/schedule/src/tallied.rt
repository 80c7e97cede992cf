// The tally, lent to whoever treats a record.
ghost use Rattle.std.specs.Prelude.{◌≡◌};
ghost use Rattle.schedule.specs.Tally.{counted};
ghost use Rattle.schedule.specs.Stand.{shown};
ghost use Rattle.schedule.specs.Bytes.{on_bytes, Does};

use crate::records::Entry;
use crate::stand::Stand;
use crate::tally::Tally;
use crate::treat::Line;

impl<'a> Stand<'a> {
    // The treatment of a record, which is handed the tally and counts the record in it by its code: its line, the three
    // memories and the tally afterwards.
    pub fn treat_counted(&mut self, entry: Entry, tally: &mut Tally) -> Line
        ensures does { Does (shown on_bytes entry) self.old self.new result }
        ensures counted { tally.new ≡ counted tally.old result.code }
    {
        let line = self.show(entry);
        tally.count(line.code);
        line
    }
}

// The stand's work: the records of a schedule, the calls on the stand's three memories, the treatment of each record,
// and of all for a report, and the tally.
#![tactic(auto)]

pub mod lend;
pub mod play;
pub mod record;
pub mod records;
pub mod stand;
pub mod tallied;
pub mod tally;
pub mod treat;

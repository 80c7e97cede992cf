// The steps of strips, to take and to free, and the beginning of their free, over the control memory. The strips'
// memory itself is never read or written.
#![tactic(auto)]

pub mod begin;
pub mod give;
pub mod take;
pub mod tree_fields;

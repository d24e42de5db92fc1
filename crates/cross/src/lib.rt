// What each record demands of its own fields and of other files, for stage C.
#![tactic(auto)]

pub mod bikes;
mod references;
pub mod set;
mod slotted;
pub mod stations;
pub mod statuses;
pub mod types;
pub mod zones;

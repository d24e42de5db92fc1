// Stage C of a set of files, judged one after another.
#![tactic(auto)]

mod records;
pub mod stage;

// Notation of the definitions in every crate's specs/. There is no code here.
#![tactic(auto)]

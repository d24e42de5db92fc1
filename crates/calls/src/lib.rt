// Calls of inner functions that another crate may make and no question makes. Tests alone: it is proved that each may be made, and a run checks what it answers.
#![tactic(auto)]

#[cfg(test)]
mod outlines;

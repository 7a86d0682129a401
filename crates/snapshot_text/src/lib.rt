// A snapshot as text for a person: its settings, the load in flight and its rows, one line at a time; or the refusal that reading it
// comes to.
//
// Every call takes any arguments over any lent memory.
#![tactic(auto)]

pub mod line;
pub mod scan;

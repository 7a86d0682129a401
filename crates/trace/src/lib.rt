// The trace program, all of it but reading and writing: one event answered by its line, and the scan of an input, line by line.
//
// Every call takes any arguments over any lent memory. What is no good line or is refused is answered by a line that says so, and
// behind it the scan is done. Beside each line `next` hands out its event and the answer, which says why: the line of a disconnect names
// the limit that ran short, the answer also by how much, and whether a ban is live or begins.
#![tactic(auto)]

pub mod newline;
pub mod scan;
pub mod settle;
pub mod step;

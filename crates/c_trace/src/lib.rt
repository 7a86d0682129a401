// The scan of a trace behind two C functions, for a program in another language to link: `uglezmir_trace_open` at the beginning of an
// input, then `uglezmir_trace_next` line by line.
//
// A scan crosses as words in which nothing can be out of range:
//   place: the place of the next line, its number, the phase (0 too long, 1 settings, 2 events; 3 and every other number: done)
//   longs, shorts: the policy, as in crate `c_peers`
// The input and the table are each a pointer, then a length; `line` is a pointer to 73 bytes. The caller answers for what types would rule
// out there: no null, every length true, and no two of them over the same memory. It lends the same input and table at every call.
#![tactic(auto)]

pub mod scan;
mod words;

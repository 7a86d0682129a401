// The limiter of channel updates behind a C function, for a program in another language to link; its first argument is the operation's
// number.
//
// What crosses is words in which nothing can be out of range: longs interval, max_entries, rows; short burst. A side is 0 for false,
// anything else for true.
// A table is a pointer, then its length; a key is a pointer to its bytes. The caller answers for what types would rule out there: no
// null, every length true, and no two of them over the same memory. The answer is a number: below 256 a refusal, on which nothing
// changes (0 where there is no such operation), or 259 for no, 260 for yes, 261 for what is left in the words and in `value`.
#![tactic(auto)]

pub mod limiter;

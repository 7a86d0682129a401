// The gossip state behind a C function, for a program in another language to link; its first argument is the operation's number.
//
// What crosses is words in which nothing can be out of range: longs duration, max_entries, ban rows, global rate, global burst, global
// last refill, peer rate, peer burst, outbound rows, queue capacity; shorts threshold, then the global bucket's amount: a sign (0 is plus,
// anything else minus), four limbs, the least first. A violation is 0, 1 or 2 in the order of `GossipViolation`.
// A table is a pointer, then its length; a key is a pointer to its bytes. The caller answers for what types would rule out there: no
// null, every length true, and no two of them over the same memory. The answer is a number: below 256 a refusal, on which nothing
// changes (0 where there is no such operation or violation), or 259 for no, 260 for yes, 261 for what is left in the words and in `value`.
#![tactic(auto)]

pub mod gossip;
mod gossip_words;

// Buckets, settings and amounts by themselves behind C functions, for a program in another language to link: one function a subject,
// its first argument the operation's number.
//
// What crosses is words in which nothing can be out of range:
//   a discrete bucket: longs interval, last refill; shorts capacity, available
//   a byte bucket: longs rate, burst, last refill; an amount
//   an amount: a sign (0 is plus, anything else minus), then four limbs, the least first
//   the peers' settings: longs interval, rate, burst_bytes, ban_duration, max_tracked, max_bytes; shorts burst, threshold, max_messages
//   a byte limit: rate, burst
// The caller answers for what types would rule out there: no null, and no two of them over the same memory. The answer is a number:
// below 256 a refusal, on which nothing changes (0 where there is no such operation, and for a division by 0), or 259 for no, 260 for
// yes, 261 for what is left in the words and in `value`.
#![tactic(auto)]

pub mod amounts;
pub mod bytes;
pub mod discrete;
pub mod limits;
pub mod settings;

// The peers' calls behind C functions, for a program in another language to link.
//
// A policy crosses as two arrays of words in which nothing can be out of range:
//   longs: interval, rate, burst_bytes, ban_duration, max_tracked, max_bytes, in_flight_bytes, rows
//   shorts: burst, threshold, max_messages, in_flight_messages
// A table is a pointer, then its length; a key is a pointer to 33 bytes. The caller answers for what types would rule out there: no
// null, every length true, and no two of them over the same memory. The answer is a number: a refusal itself, on which nothing
// changes, or 256 and up. A cause is two words: its number, and by how much its limit ran short.
#![tactic(auto)]

pub mod peers;

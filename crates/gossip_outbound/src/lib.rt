// The outbound half of the gossip policy: what all peers together and each peer may be sent, on a global bucket, the settings of the
// peers' buckets, and the peers' buckets as rows in lent bytes.
//
// No call has a condition. A call on an unsound state is refused with 3, one that would need a row where 1,024 are taken with 5, and a
// refused call changes nothing.
#![tactic(auto)]

pub mod answer;
pub mod calls;

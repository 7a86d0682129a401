// Laws of the calls of peer_message_policy, for proofs above it: no code stands here, and no proof of the calls' own code needs them.
//
// They stand apart so that a wrong program among the calls is checked without them.
#![tactic(auto)]

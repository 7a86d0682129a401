// Runs of the calls of peer_message_policy, call after call on lent memory, and their laws, for proofs above it: no code stands here.
#![tactic(auto)]

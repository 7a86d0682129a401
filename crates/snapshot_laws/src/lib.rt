// Laws of snapshots, for a policy written and read back and for bytes read and written back: no code stands here, and no proof of the
// calls' own code needs them.
#![tactic(auto)]

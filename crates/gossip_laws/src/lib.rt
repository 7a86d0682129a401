// Laws of the gossip calls, in `specs/`, over the contracts of the crates that have them (no function): at most one outcome of each call,
// that every call keeps a sound state sound and the memory's length, and marked samples.
#![tactic(auto)]

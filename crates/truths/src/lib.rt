// Laws of tests, for every crate above: `specs/` is all there is.
#![tactic(auto)]

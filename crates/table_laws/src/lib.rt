// Laws of tables of any widths, and the definitions that they are stated by: `specs/` is all there is.
#![tactic(auto)]

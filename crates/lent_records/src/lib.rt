// Laws of records that are lent by `&mut` and altered, proved once for any record, for functions of that form to cite (a support crate:
// laws, no code).
// Kept: the check proves the functions of that form by itself now, and no crate cites these laws; `AlteringOneLaws.meets` and its three
// like stand, since docs/PORT.md names them among the theorems that do.
#![tactic(auto)]

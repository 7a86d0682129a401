// Little-endian numbers and runs of bytes in a slice that the caller lends (a support crate: its functions require their place).
//
// Every writer's contract says one thing: what stands in the slice afterwards is `put` of what stood there.
#![tactic(auto)]

pub mod number;
pub mod run;

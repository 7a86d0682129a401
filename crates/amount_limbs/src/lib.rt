// Unsigned numbers of 128 bits in four 32-bit limbs, the least first: products, and the division by a u64 (a support crate of `amount`).
#![tactic(auto)]

pub mod divide;
pub mod halves;
pub mod product;

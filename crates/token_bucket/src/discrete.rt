// The bucket that counts messages.
pub use bucket_discrete::discrete::{DiscreteConsumed, DiscreteRefilled, DiscreteTokenBucket};

// What the buckets answer.
pub use bucket_terms::answer::NotGiven;

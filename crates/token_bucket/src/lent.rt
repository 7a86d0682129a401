// The operations that change a bucket, on a bucket that is lent by `&mut` and altered: each is the call by value of the same name, and
// leaves the bucket that it hands back. A refusal leaves the bucket as it was.
pub mod bytes;
pub mod discrete;

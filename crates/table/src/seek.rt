// What a walk over a table finds: that it is unsound, the place of a key, or the gap where the key would stand.
#[derive(Clone, Copy, Debug, PartialEq, Eq)]
pub enum Seek {
    Unsound,
    At(usize),
    Gap(usize),
}

// Where a line of an input ends.
ghost use Rattle.std.specs.Prelude.{◌≡◌};
ghost use Rattle.trace.specs.Private.{line_end_of};

// The place of the first newline at or behind the place.
pub(crate) fn line_end(input: &[u8], at: usize) -> Option<usize>
    ensures { result ≡ line_end_of input.now at }
{
    for i in at..input.len() {
        if input[i] == b'\n' {
            return Some(i);
        }
    }
    None
}

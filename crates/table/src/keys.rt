// Keys compared where they stand, in a slice that the caller lends.
ghost use Rattle.std.specs.Prelude.{◌≡◌, ◌+◌, ◌≤◌, length};
ghost use Rattle.lent_bytes.specs.LentBytes.{part};
ghost use Rattle.pubkey.specs.Order.{compare_bytes};

use std::cmp::Ordering;

// Which comes first of the `width` bytes at two places.
pub fn compare_places(table: &[u8], a: usize, b: usize, width: usize) -> Ordering
    requires a_in_bounds { a + width ≤ length table.now }
    requires b_in_bounds { b + width ≤ length table.now }
    ensures { result ≡ compare_bytes (part table.now a width) (part table.now b width) }
{
    pubkey::order::compare_bytes(&table[a..a + width], &table[b..b + width])
}

// The rows judged, and a key found among them.
ghost use Rattle.std.specs.Prelude.{◌≡◌, ◌*◌, ◌≤◌, length};
ghost use Rattle.table.specs.Private.{seek};
ghost use Rattle.table.specs.Memory.{rows};
ghost use Rattle.gossip_outbound_rows.specs.Rows.{row_width, outbound_layout, outbound_sound};

use crate::row::OutboundRows;
use bucket_terms::limit::ByteRateLimitConfig;
use keyed_rows::kind;
use pubkey::Pubkey;
use table::seek::Seek;

// Whether the rows are sound, and where the key stands or would stand.
pub fn sought(table: &[u8], count: usize, config: ByteRateLimitConfig, key: Pubkey) -> Seek
    requires { row_width * count ≤ length table.now }
    ensures { result ≡ seek (outbound_sound config) key.bytes (rows outbound_layout table.now count) }
{
    kind::sought::<OutboundRows, 4>(OutboundRows { config }, table, count, &key.bytes)
}

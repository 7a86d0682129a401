// The rows judged, and a key found among them.
ghost use Rattle.std.specs.Prelude.{◌≡◌, ◌*◌, ◌≤◌, length};
ghost use Rattle.table.specs.Private.{seek};
ghost use Rattle.table.specs.Memory.{rows};
ghost use Rattle.gossip_ban_rows.specs.Rows.{row_width, ban_layout, ban_sound};

use crate::row::BanRows;
use keyed_rows::kind;
use pubkey::Pubkey;
use table::seek::Seek;

// Whether the rows are sound, and where the key stands or would stand.
pub fn sought(table: &[u8], count: usize, key: Pubkey) -> Seek
    requires { row_width * count ≤ length table.now }
    ensures { result ≡ seek ban_sound key.bytes (rows ban_layout table.now count) }
{
    kind::sought::<BanRows, 4>(BanRows, table, count, &key.bytes)
}

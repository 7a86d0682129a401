// The rows judged, and a key found among them.
ghost use Rattle.std.specs.Prelude.{◌≡◌, ◌*◌, ◌≤◌, length};
ghost use Rattle.table.specs.Private.{seek};
ghost use Rattle.table.specs.Memory.{rows};
ghost use Rattle.table_laws.specs.Lent.{rows_sound};
ghost use Rattle.peer_rows.specs.Rows.{row_width, peer_layout, peer_sound};

use super::row::{KEY_WIDTH, PeerRows};
use keyed_rows::kind;
use peer_settings::config::PeerMessagePolicyConfig;
use pubkey::Pubkey;
use table::seek::Seek;

// Whether the rows are sound, and where the key stands or would stand: one walk, which judges each row once.
pub fn sought(config: PeerMessagePolicyConfig, table: &[u8], count: usize, key: Pubkey) -> Seek
    requires { row_width * count ≤ length table.now }
    ensures { result ≡ seek (peer_sound config) key.bytes (rows peer_layout table.now count) }
{
    kind::sought::<PeerRows, 11>(PeerRows { config }, table, count, &key.bytes)
}

// Whether the rows are sound, whoever they are of: the same walk, with any key.
pub fn rows_sound(config: PeerMessagePolicyConfig, table: &[u8], count: usize) -> bool
    requires { row_width * count ≤ length table.now }
    ensures { result ≡ rows_sound peer_layout (peer_sound config) table.now count }
{
    let any = Pubkey {
        bytes: [0; KEY_WIDTH],
    };
    !matches!(sought(config, table, count, any), Seek::Unsound)
}

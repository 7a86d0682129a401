// The rows judged, and a key found among them.
ghost use Rattle.std.specs.Prelude.{◌≡◌, ◌*◌, ◌≤◌, length};
ghost use Rattle.pubkey.specs.Order.{limiter_key_bytes};
ghost use Rattle.table.specs.Private.{seek};
ghost use Rattle.table.specs.Memory.{rows};
ghost use Rattle.gossip_limiter_rows.specs.Rows.{row_width, limiter_layout, limiter_sound};

use crate::row::LimiterRows;
use gossip_settings::channel_update::ChannelUpdateRateLimitConfig;
use keyed_rows::kind;
use pubkey::ChannelUpdateLimiterKey;
use table::seek::Seek;

// Whether the rows are sound, and where the key stands or would stand.
pub fn sought(
    table: &[u8],
    count: usize,
    config: ChannelUpdateRateLimitConfig,
    key: ChannelUpdateLimiterKey,
) -> Seek
    requires { row_width * count ≤ length table.now }
    ensures { result ≡ seek (limiter_sound config) (limiter_key_bytes key) (rows limiter_layout table.now count) }
{
    kind::sought::<LimiterRows, 3>(LimiterRows { config }, table, count, &key.bytes())
}

// A snapshot's bytes, written part by part.
ghost use Rattle.std.specs.Prelude.{◌≡◌, [], ◌*◌, ◌≤◌, length};
ghost use Rattle.lent_bytes.specs.LentBytes.{put};
ghost use Rattle.snapshot_layout.specs.Layout.{bodies};
ghost use Rattle.peer_rows.specs.Rows.{row_width};
ghost use Rattle.snapshot.specs.Form.{first, settings_place};
ghost use Rattle.snapshot.specs.Snapshot.{policy_parts, snapshot_bytes, snapshot_length};

use super::form;
use peer_message_policy::policy::PeerMessagePolicy;
use peer_rows::row::ROW_WIDTH;

// Writes settings, load and rows, one behind the other.
fn put_bodies(output: &mut [u8], policy: PeerMessagePolicy, table: &[u8])
    requires policy_in_bounds { snapshot_length first policy ≤ length output.old }
    requires rows_in_bounds { row_width * policy.rows ≤ length table.now }
    ensures { output.new ≡ put output.old (settings_place first) (bodies (policy_parts first policy table.now [])) }
{
    let end = ROW_WIDTH * (policy.rows as usize);
    snapshot_settings::settings::put_settings(output, form::SETTINGS_PLACE, policy.config);
    snapshot_settings::load::put_load(output, form::LOAD_PLACE, policy.ingress);
    lent_bytes::run::put_slice(output, form::ROWS_PLACE, &table[..end]);
}

// Writes the contents and what they tell of.
pub(crate) fn put_snapshot(output: &mut [u8], policy: PeerMessagePolicy, table: &[u8])
    requires rows_bound { policy.rows ≤ 1024 }
    requires policy_in_bounds { snapshot_length first policy ≤ length output.old }
    requires rows_in_bounds { row_width * policy.rows ≤ length table.now }
    ensures { output.new ≡ put output.old 0 (snapshot_bytes first policy table.now []) }
{
    let kinds = form::kinds();
    let lengths = form::lengths(policy.rows as usize);
    snapshot_layout::contents::put_contents(output, &kinds, &lengths);
    put_bodies(output, policy, table);
}

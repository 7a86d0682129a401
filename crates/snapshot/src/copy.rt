// The rows of a snapshot, copied into a table.
ghost use Rattle.std.specs.Prelude.{◌≡◌, ◌+◌, ◌*◌, ◌≤◌, length, drop, Ok};
ghost use Rattle.table.specs.Memory.{rows, Holds};
ghost use Rattle.peer_rows.specs.Rows.{row_width, peer_layout};
ghost use Rattle.snapshot.specs.Form.{first, rows_place};
ghost use Rattle.snapshot.specs.Snapshot.{policy_in, ReadMeets};

use super::form;
use peer_message_policy::policy::PeerMessagePolicy;
use peer_rows::row::ROW_WIDTH;
use refusal::Refusal;

// Copies so many rows, and writes zeros into the places of the limit behind them.
fn copy_rows(snapshot: &[u8], table: &mut [u8], count: usize, limit: usize)
    requires count_in_bounds { rows_place first + row_width * count ≤ length snapshot.now }
    requires count_le_limit { count ≤ limit }
    requires limit_in_bounds { row_width * limit ≤ length table.old }
    ensures { Holds peer_layout table.old table.new limit (rows peer_layout (drop (rows_place first) snapshot.now) count) }
{
    let from = form::ROWS_PLACE;
    let end = from + ROW_WIDTH * count;
    lent_bytes::run::put_slice(table, 0, &snapshot[from..end]);
    table::rows::zero_rows(table, ROW_WIDTH, count, limit - count);
}

// A policy that stands in the snapshot takes the table, if it has room for the limit.
pub(crate) fn restore(
    policy: PeerMessagePolicy,
    snapshot: &[u8],
    table: &mut [u8],
) -> Result<PeerMessagePolicy, Refusal>
    requires { policy_in first snapshot.now ≡ Ok policy }
    ensures { ReadMeets first snapshot.now table.old result table.new }
{
    let limit = policy.config.limit();
    if ((table.len() / ROW_WIDTH) as u64) < limit {
        return Err(Refusal::TooShort);
    }
    copy_rows(snapshot, table, policy.rows as usize, limit as usize);
    Ok(policy)
}

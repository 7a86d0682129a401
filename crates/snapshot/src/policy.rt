// A policy written as a snapshot, and read back.
ghost use Rattle.snapshot.specs.Form.{first};
ghost use Rattle.snapshot.specs.Snapshot.{WriteMeets, ReadMeets};

use super::{copy, form, judge, put};
use peer_message_policy::policy::PeerMessagePolicy;
use peer_rows::row::ROW_WIDTH;
use refusal::Refusal;

// Writes a snapshot to the beginning of the output: 120 bytes and 121 for each row. Every further byte stays. Refused with 3 where
// policy or table are unsound, then with 1 where the output is too short.
pub fn write(policy: PeerMessagePolicy, table: &[u8], output: &mut [u8]) -> Result<usize, Refusal>
    ensures { WriteMeets policy table.now output.old result output.new }
{
    if !policy.is_sound_in(table) {
        return Err(Refusal::Unsound);
    }
    let size = form::ROWS_PLACE + ROW_WIDTH * (policy.rows as usize);
    if output.len() < size {
        return Err(Refusal::TooShort);
    }
    put::put_snapshot(output, policy, table);
    Ok(size)
}

// Reads a snapshot: its rows go to the beginning of the table, zeros into the limit's other places, and every further byte stays.
// Refused with 6 where the layout is wrong, with 2 where the limit is above 1,024, with 3 where the policy that the snapshot describes
// is unsound, whatever the table, then with 1 where the table is too short for the limit.
pub fn read(snapshot: &[u8], table: &mut [u8]) -> Result<PeerMessagePolicy, Refusal>
    ensures { ReadMeets first snapshot.now table.old result table.new }
{
    copy::restore(judge::policy_in(snapshot)?, snapshot, table)
}

// The lines that a snapshot is shown by, each by value.
ghost use Rattle.std.specs.Prelude.{◌≡◌, ◌<◌, ◌≤◌, length};
ghost use Rattle.refusal.specs.Refusal.{number_of};
ghost use Rattle.text_pieces.specs.Text.{refusal_text};
ghost use Rattle.snapshot_text.specs.Words.{rate_name};
ghost use Rattle.snapshot_text.specs.Shown.{line_of, field_text, field_line, head_text, row_text};
ghost use Rattle.snapshot_text.specs.Scan.{numbers};

use peer_message_policy::policy::PeerMessagePolicy;
use refusal::Refusal;
use snapshot_reader::row::SnapshotRow;
use text_pieces::column::{put_column, put_columns};
use text_pieces::hex::put_hex;
use text_pieces::piece::{put_refusal, put_text};

// The longest line: 66 digits of a key, eleven numbers of up to 20 digits behind a blank each, and a newline are 298.
pub const LINE_SIZE: usize = 300;

// A line with its newline; the bytes behind its length are zero.
#[derive(Clone, Copy)]
pub struct ShownLine {
    pub bytes: [u8; LINE_SIZE],
    pub length: usize,
}

// The place that the number of a named line ends at, without the blank before it; and how many places a row's number has.
const NUMBERS_END: usize = 51;

const ROW_COLUMN: usize = 13;

// `refusal N`
pub(crate) fn refusal_line(refusal: Refusal) -> ShownLine
    ensures { result ≡ line_of (refusal_text (number_of refusal)) }
{
    let mut bytes = [0u8; LINE_SIZE];
    let length = put_refusal(&mut bytes, refusal.number() as u64);
    ShownLine { bytes, length }
}

// A name, and its number so that all such lines end alike. None is longer than `peer_message_rate_bytes_per_sec`.
fn field_line(name: &[u8], number: u64) -> ShownLine
    requires { length name.now ≤ length rate_name }
    ensures { result ≡ line_of (field_text name.now number) }
{
    let mut out = [0u8; LINE_SIZE];
    let after_name = put_text(&mut out, 0, name);
    let width = NUMBERS_END - name.len();
    let after_number = put_column(&mut out, after_name, width, number);
    out[after_number] = b'\n';
    ShownLine {
        bytes: out,
        length: after_number + 1,
    }
}

// The named number at this index: nine settings in their order, the load in flight, the rows.
pub(crate) fn number_line(policy: PeerMessagePolicy, index: usize) -> ShownLine
    requires { index < numbers }
    ensures { result ≡ line_of (field_line policy index) }
{
    let config = policy.config;
    let load = policy.ingress;
    match index {
        0 => field_line(b"peer_message_interval_ms", config.peer_message_interval_ms),
        1 => field_line(b"peer_message_burst", config.peer_message_burst as u64),
        2 => field_line(
            b"peer_message_rate_bytes_per_sec",
            config.peer_message_rate_bytes_per_sec,
        ),
        3 => field_line(b"peer_message_burst_bytes", config.peer_message_burst_bytes),
        4 => field_line(
            b"violation_ban_threshold",
            config.violation_ban_threshold as u64,
        ),
        5 => field_line(b"ban_duration_ms", config.ban_duration_ms),
        6 => field_line(b"max_tracked_peers", config.max_tracked_peers),
        7 => field_line(
            b"max_in_flight_messages",
            config.max_in_flight_messages as u64,
        ),
        8 => field_line(b"max_in_flight_bytes", config.max_in_flight_bytes),
        9 => field_line(b"in_flight_messages", load.in_flight_messages as u64),
        10 => field_line(b"in_flight_bytes", load.in_flight_bytes),
        _ => field_line(b"rows", policy.rows),
    }
}

// The heads of the rows' columns.
pub(crate) fn head_line() -> ShownLine
    ensures { result ≡ line_of head_text }
{
    let mut bytes = [0u8; LINE_SIZE];
    let length = put_text(
        &mut bytes,
        0,
        b"key                                                                     messages      refilled         bytes      refilled       limited         since       invalid         since           ban         until     last_used\n",
    );
    ShownLine { bytes, length }
}

// A row: its key, and its eleven numbers.
pub(crate) fn row_line(row: SnapshotRow) -> ShownLine
    ensures { result ≡ line_of (row_text row.key.bytes row.entry) }
{
    let mut out = [0u8; LINE_SIZE];
    let after_key = put_hex(&mut out, 0, &row.key.bytes);
    let numbers = peer_rows::row::words_of(row.entry);
    let after_numbers = put_columns(&mut out, after_key, ROW_COLUMN, &numbers);
    out[after_numbers] = b'\n';
    ShownLine {
        bytes: out,
        length: after_numbers + 1,
    }
}

// An event's line, judged by its first letter.
ghost use Rattle.std.specs.Prelude.{◌≡◌, ◌≤◌, get_or, None};
ghost use Rattle.trace_lines.specs.Lines.{hex_digit, hex_pair, hex_byte, key_spelled, step_of, key_of, event, bad_event, admit_of, keyed_of, release_of, event_of, no_key};

use super::field::{LARGEST_64, blank_then_number, ends, field, value};
use pubkey::Pubkey;

// Places of a line: of the blank behind its letter, of its key, and behind the key's first two digits.
const BEHIND_LETTER: usize = 1;

const KEY_PLACE: usize = 2;

const BEHIND_PAIR: usize = 4;

// How many bytes a key has.
const KEY_SIZE: usize = 33;

// What an event asks of the policy, by the letters a, i, b, d and r.
#[derive(Clone, Copy)]
pub enum EventKind {
    Admit,
    Invalid,
    BanQuery,
    Disconnected,
    Release,
    Bad,
}

// An event; what its kind has no use for is zero. A bad line is a kind of its own.
#[derive(Clone, Copy)]
pub struct Event {
    pub kind: EventKind,
    pub key: Pubkey,
    pub bytes: u64,
    pub now_ms: u64,
}

// A key, and the place behind it as the field before the next one.
#[derive(Clone, Copy)]
pub struct KeyField {
    pub key: Pubkey,
    pub end: Option<(u64, usize)>,
}

// The line's byte at the place, or 0 behind its end: no letter, digit or blank.
fn byte_at(line: &[u8], at: usize) -> u8
    ensures { result ≡ get_or line.now at 0 }
{
    if at < line.len() {
        return line[at];
    }
    0
}

// The value of a lower-case hex digit; 16 for any other byte.
fn hex_digit(b: u8) -> u8
    ensures { result ≡ hex_digit b }
{
    match b {
        b'0'..=b'9' => b - b'0',
        b'a'..=b'f' => b - b'a' + 10,
        _ => 16,
    }
}

// The byte of two hex digits' values; 256 where one is none.
fn hex_pair(high: u8, low: u8) -> u16
    ensures { result ≡ hex_pair high low }
{
    if high >= 16 {
        return 256;
    }
    if low >= 16 {
        return 256;
    }
    (16 * high + low) as u16
}

// The byte that two hex digits spell; 256 where one is none.
fn hex_byte(line: &[u8], at: usize) -> u16
    requires { at ≤ 1000 }
    ensures { result ≡ hex_byte line.now at }
{
    let high = byte_at(line, at);
    let low = byte_at(line, at + 1);
    hex_pair(hex_digit(high), hex_digit(low))
}

fn no_key() -> KeyField
    ensures { result ≡ record { key = no_key; end = None } }
{
    KeyField {
        key: Pubkey {
            bytes: [0u8; KEY_SIZE],
        },
        end: None,
    }
}

// The key whose bytes stand `step` places apart, from the third byte of the line on.
fn key_spelled(line: &[u8], step: usize) -> KeyField
    requires { step ≤ 2 }
    ensures { result ≡ key_spelled line.now step }
{
    let mut bytes = [0u8; KEY_SIZE];
    let mut i: usize = 0;
    while i < KEY_SIZE {
        let byte = hex_byte(line, KEY_PLACE + step * i);
        if byte >= 256 {
            return no_key();
        }
        bytes[i] = byte as u8;
        i += 1;
    }
    KeyField {
        key: Pubkey { bytes },
        end: Some((0, BEHIND_PAIR + (KEY_SIZE - 1) * step)),
    }
}

// The key behind the letter and its blank: a blank behind two digits says that these are all.
fn key_of(line: &[u8]) -> KeyField
    ensures { result ≡ key_of line.now }
{
    if byte_at(line, BEHIND_LETTER) != b' ' {
        return no_key();
    }
    if byte_at(line, BEHIND_PAIR) == b' ' {
        return key_spelled(line, 0);
    }
    key_spelled(line, 2)
}

// A line that is no event's.
pub fn bad_event() -> Event
    ensures { result ≡ bad_event }
{
    Event {
        kind: EventKind::Bad,
        key: Pubkey {
            bytes: [0u8; KEY_SIZE],
        },
        bytes: 0,
        now_ms: 0,
    }
}

// `a KEY BYTES NOW`
fn parse_admit(line: &[u8]) -> Event
    ensures { result ≡ admit_of line.now }
{
    let read = key_of(line);
    let end = read.end;
    let bytes = field(line, end, LARGEST_64);
    let now = field(line, bytes, LARGEST_64);
    if !ends(line, now) {
        return bad_event();
    }
    let key = read.key;
    Event {
        kind: EventKind::Admit,
        key,
        bytes: value(bytes),
        now_ms: value(now),
    }
}

// `i KEY NOW`, `b KEY NOW`, `d KEY NOW`
fn parse_keyed(kind: EventKind, line: &[u8]) -> Event
    ensures { result ≡ keyed_of kind line.now }
{
    let read = key_of(line);
    let end = read.end;
    let now = field(line, end, LARGEST_64);
    if !ends(line, now) {
        return bad_event();
    }
    let key = read.key;
    Event {
        kind,
        key,
        bytes: 0,
        now_ms: value(now),
    }
}

// `r BYTES`
fn parse_release(line: &[u8]) -> Event
    ensures { result ≡ release_of line.now }
{
    let bytes = blank_then_number(line, BEHIND_LETTER, LARGEST_64);
    if !ends(line, bytes) {
        return bad_event();
    }
    Event {
        kind: EventKind::Release,
        key: Pubkey {
            bytes: [0u8; KEY_SIZE],
        },
        bytes: value(bytes),
        now_ms: 0,
    }
}

// The event that a line without its newline spells.
pub fn parse_event(line: &[u8]) -> Event
    ensures { result ≡ event_of line.now }
{
    let letter = byte_at(line, 0);
    match letter {
        b'a' => parse_admit(line),
        b'i' => parse_keyed(EventKind::Invalid, line),
        b'b' => parse_keyed(EventKind::BanQuery, line),
        b'd' => parse_keyed(EventKind::Disconnected, line),
        b'r' => parse_release(line),
        _ => bad_event(),
    }
}

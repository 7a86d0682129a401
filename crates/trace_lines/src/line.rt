// The lines that the trace program writes, each by value.
ghost use Rattle.std.specs.Prelude.{◌≡◌, ◌≤◌, length};
ghost use Rattle.text_pieces.specs.Private.{Wrote};
ghost use Rattle.trace_lines.specs.Lines.{line_of, word_text, answer_text, bad_line_text, refusal_text};

use text_pieces::piece::{put_number, put_refusal, put_text};

// How many bytes a line is written in.
pub const LINE_SIZE: usize = 73;

// A line with its newline; the bytes behind its length are zero.
#[derive(Clone, Copy)]
pub struct TraceLine {
    pub bytes: [u8; LINE_SIZE],
    pub length: usize,
}

// What the policy answered to an event; a disconnect names the limit that ran short.
#[derive(Clone, Copy)]
pub enum Word {
    Allow,
    DisconnectMessages,
    DisconnectBytes,
    DisconnectCeiling,
    Ban,
    Banned,
    Noted,
    Free,
    Closed,
    Released,
}

// Writes the word at the front, and answers the place behind it. None is longer than `Disconnect-messages`.
fn put_word(out: &mut [u8], word: Word) -> usize
    requires { length (word_text Word.DisconnectMessages) ≤ length out.old }
    ensures { Wrote out.old 0 (word_text word) result out.new }
{
    match word {
        Word::Allow => put_text(out, 0, b"Allow"),
        Word::DisconnectMessages => put_text(out, 0, b"Disconnect-messages"),
        Word::DisconnectBytes => put_text(out, 0, b"Disconnect-bytes"),
        Word::DisconnectCeiling => put_text(out, 0, b"Disconnect-ceiling"),
        Word::Ban => put_text(out, 0, b"Ban"),
        Word::Banned => put_text(out, 0, b"Banned"),
        Word::Noted => put_text(out, 0, b"Noted"),
        Word::Free => put_text(out, 0, b"Free"),
        Word::Closed => put_text(out, 0, b"Closed"),
        Word::Released => put_text(out, 0, b"Released"),
    }
}

// An answer, the messages and bytes in flight, the rows held.
pub fn answer_line(word: Word, messages: u32, bytes: u64, rows: u64) -> TraceLine
    ensures { result ≡ line_of (answer_text word messages bytes rows) }
{
    let mut out = [0u8; LINE_SIZE];
    let after_word = put_word(&mut out, word);
    let after_messages = put_number(&mut out, after_word, messages as u64);
    let after_bytes = put_number(&mut out, after_messages, bytes);
    let after_rows = put_number(&mut out, after_bytes, rows);
    out[after_rows] = b'\n';
    TraceLine {
        bytes: out,
        length: after_rows + 1,
    }
}

// `bad line K`: the settings are line 1.
pub fn bad_line(number: u64) -> TraceLine
    ensures { result ≡ line_of (bad_line_text number) }
{
    let mut out = [0u8; LINE_SIZE];
    let after_words = put_text(&mut out, 0, b"bad line");
    let after_number = put_number(&mut out, after_words, number);
    out[after_number] = b'\n';
    TraceLine {
        bytes: out,
        length: after_number + 1,
    }
}

// `refusal N`
pub fn refusal_line(number: u32) -> TraceLine
    ensures { result ≡ line_of (refusal_text number) }
{
    let mut out = [0u8; LINE_SIZE];
    let end = put_refusal(&mut out, number as u64);
    TraceLine {
        bytes: out,
        length: end,
    }
}

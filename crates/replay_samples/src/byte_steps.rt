// The steps of the bucket that counts bytes: each writes its line.
use refusal::Refusal;
use replay::line::Line;
use replay::program;
use token_bucket::bytes::ByteTokenBucket;

// Asks for bytes, and answers the bucket after it.
pub(crate) fn take(
    rt: &HostRuntime,
    letter: u8,
    b: ByteTokenBucket,
    bytes: u64,
    now_ms: u64,
) -> ByteTokenBucket {
    let done = b.try_consume(bytes, now_ms);
    let line = begun(letter, done.state)
        .text(b"take")
        .then(bytes)
        .text(b" at")
        .then(now_ms)
        .byte(b' ');
    program::print(rt, crate::consumed(line, done.answer));
    done.state
}

// Takes bytes in any case, and answers the bucket after it.
pub(crate) fn reserve(
    rt: &HostRuntime,
    letter: u8,
    b: ByteTokenBucket,
    bytes: u64,
    now_ms: u64,
) -> ByteTokenBucket {
    let done = b.reserve(bytes, now_ms);
    let line = begun(letter, done.state)
        .text(b"reserve")
        .then(bytes)
        .text(b" at")
        .then(now_ms)
        .byte(b' ');
    program::print(rt, delay(line, done.answer));
    done.state
}

// Asks for debt, which changes nothing.
pub(crate) fn ask_debt(rt: &HostRuntime, letter: u8, b: ByteTokenBucket, now_ms: u64) {
    let line = begun(letter, b).text(b"debt at").then(now_ms).byte(b' ');
    program::print(rt, told(line, b.has_debt(now_ms)));
}

fn delay(line: Line, answer: Result<u64, Refusal>) -> Line {
    match answer {
        Ok(ms) => line.text(b"delay").then(ms),
        Err(n) => line.refusal(n.number()),
    }
}

fn told(line: Line, answer: Result<bool, Refusal>) -> Line {
    match answer {
        Ok(true) => line.text(b"yes"),
        Ok(false) => line.text(b"no"),
        Err(n) => line.refusal(n.number()),
    }
}

fn begun(letter: u8, b: ByteTokenBucket) -> Line {
    Line::empty()
        .byte(letter)
        .text(b" rate")
        .then(b.config.rate_bytes_per_sec)
        .text(b", burst")
        .then(b.config.burst_bytes)
        .text(b": ")
}

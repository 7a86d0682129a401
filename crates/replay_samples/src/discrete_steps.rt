// A step of the bucket that counts messages: it writes its line.
use replay::line::Line;
use replay::program;
use token_bucket::discrete::DiscreteTokenBucket;

// Asks for one token, and answers the bucket after it.
pub(crate) fn take(
    rt: &HostRuntime,
    letter: u8,
    b: DiscreteTokenBucket,
    now_ms: u64,
) -> DiscreteTokenBucket {
    let done = b.try_consume(now_ms);
    let line = begun(letter, done.state)
        .text(b"at")
        .then(now_ms)
        .byte(b' ');
    program::print(rt, crate::consumed(line, done.answer));
    done.state
}

fn begun(letter: u8, b: DiscreteTokenBucket) -> Line {
    Line::empty()
        .byte(letter)
        .text(b" interval")
        .then(b.interval_ms)
        .text(b", burst")
        .then(b.capacity as u64)
        .text(b": ")
}

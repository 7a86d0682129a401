// What a bucket answers, as the recorded lines have it: `-` for nothing, 1 or 0, a decimal.
use bucket_terms::answer::NotGiven;
use refusal::{Answered, Refusal};
use replay::line::Line;

pub(crate) fn nothing() -> Line {
    Line::empty().byte(b'-')
}

pub(crate) trait Recorded {
    fn recorded(self) -> Line;
}

impl Recorded for Result<(), Refusal> {
    fn recorded(self) -> Line {
        match self {
            Ok(()) => nothing(),
            Err(n) => Line::empty().refusal(n.number()),
        }
    }
}

// How much was missing is not recorded.
impl Recorded for Result<(), NotGiven> {
    fn recorded(self) -> Line {
        match self {
            Ok(()) => Line::empty().truth(true),
            Err(NotGiven::Short(_)) => Line::empty().truth(false),
            Err(NotGiven::Refused(n)) => Line::empty().refusal(n.number()),
        }
    }
}

impl Recorded for Result<u64, Refusal> {
    fn recorded(self) -> Line {
        match self {
            Ok(ms) => Line::empty().decimal(ms),
            Err(n) => Line::empty().refusal(n.number()),
        }
    }
}

impl Recorded for Result<bool, Refusal> {
    fn recorded(self) -> Line {
        match self {
            Ok(yes) => Line::empty().truth(yes),
            Err(n) => Line::empty().refusal(n.number()),
        }
    }
}

// The bucket after a step, and the line of what the step by value answered, or that the step on a lent bucket gave something else.
pub(crate) fn agreed<B: Copy + PartialEq, A: Copy + PartialEq + Recorded>(
    by_value: Answered<B, A>,
    lent: Answered<B, A>,
) -> Answered<B, Line> {
    let line = if by_value == lent {
        by_value.answer.recorded()
    } else {
        Line::empty().text(b"lent differs")
    };
    Answered {
        state: by_value.state,
        answer: line,
    }
}

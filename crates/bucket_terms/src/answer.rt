// Why a bucket gave nothing. Every other answer of a bucket is a `Result` with the refusal as its error.
ghost use Rattle.std.specs.Prelude.{◌≡◌, Some};
ghost use Rattle.bucket_terms.specs.Answers.{not_given_text};
ghost use Rattle.bucket_terms.specs.declared.answer.NotGiven.TheVariants as NotGiven;

use refusal::Refusal;
use std::error::Error;
use std::fmt;

// What was asked for was not there, by how much; or the call is refused.
#[derive(Clone, Copy, Debug, PartialEq, Eq)]
pub enum NotGiven {
    Short(u64),
    Refused(Refusal),
}

impl From<Refusal> for NotGiven {
    ghost from_gives = { λ refusal e. e ≡ NotGiven.Refused refusal };

    fn from(refusal: Refusal) -> NotGiven {
        NotGiven::Refused(refusal)
    }
}

impl fmt::Display for NotGiven {
    ghost output = { λ e. Some (not_given_text e) };

    fn fmt<W: fmt::Write>(&self, f: &mut fmt::Formatter<W>) -> fmt::Result {
        match self {
            NotGiven::Short(by) => write!(f, "short by {by}"),
            NotGiven::Refused(refusal) => write!(f, "{refusal}"),
        }
    }
}

impl Error for NotGiven {}

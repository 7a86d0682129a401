// Why a call is refused, and what a call hands back beside its answer.
//
// A refused call changes nothing. Which call gives which refusal, and in which order they are judged, stands with each call. Callers in C
// are told the number of document 01.
#![tactic(auto)]

ghost use Rattle.std.specs.Prelude.{◌≡◌, Some};
ghost use Rattle.refusal.specs.Refusal.{number_of, text_of};

use std::error::Error;
use std::fmt;

#[derive(Clone, Copy, Debug, PartialEq, Eq)]
pub enum Refusal {
    // The lent table is shorter than its limit, or the output shorter than what is written.
    TooShort,
    // A table's limit is above 1,024 rows.
    LimitTooLarge,
    // The lent state is unsound.
    Unsound,
    // The message would be admitted, and the numbers in flight have no room for it.
    Overflow,
    // The outbound table has no row left.
    NoRow,
    // The snapshot's layout is wrong, or it has no such kind.
    WrongLayout,
}

impl Refusal {
    // The number that document 01 has for it.
    pub fn number(self) -> u32
        ensures { result ≡ number_of self }
    {
        match self {
            Refusal::TooShort => 1,
            Refusal::LimitTooLarge => 2,
            Refusal::Unsound => 3,
            Refusal::Overflow => 4,
            Refusal::NoRow => 5,
            Refusal::WrongLayout => 6,
        }
    }
}

impl fmt::Display for Refusal {
    ghost output = { λ refusal. Some (text_of refusal) };

    fn fmt<W: fmt::Write>(&self, f: &mut fmt::Formatter<W>) -> fmt::Result {
        f.write_str(match self {
            Refusal::TooShort => "refusal 1: a table or an output is too short",
            Refusal::LimitTooLarge => "refusal 2: a limit above 1,024 rows",
            Refusal::Unsound => "refusal 3: an unsound state",
            Refusal::Overflow => "refusal 4: no room in the numbers of the load in flight",
            Refusal::NoRow => "refusal 5: no outbound row left: 1,024 peers have one",
            Refusal::WrongLayout => "refusal 6: a snapshot whose layout is wrong",
        })
    }
}

impl Error for Refusal {}

// What a call hands back: what it changed, as it was where the call is refused, and its answer.
#[derive(Clone, Copy, Debug, PartialEq, Eq)]
pub struct Answered<S, A> {
    pub state: S,
    pub answer: A,
}

impl<S, A> Answered<S, A> {
    // The same answer beside what the state becomes.
    pub fn map_state<T, F: FnOnce(S) -> T>(self, f: F) -> Answered<T, A>
        requires { F.pre f self.state }
        ensures state { F.post f self.state result.state }
        ensures answer { result.answer ≡ self.answer }
    {
        Answered {
            state: f(self.state),
            answer: self.answer,
        }
    }
}

// A snapshot shown line by line: judged once, then one line a call.
ghost use Rattle.std.specs.Prelude.{◌≡◌, ◌≤◌};
ghost use Rattle.snapshot_text.specs.Scan.{begun, following, row_handed, numbers, refused_next, policy_next, next_of, OpenMeets};
ghost use Rattle.snapshot_reader.specs.Reader.{step_at};

use super::line::{ShownLine, head_line, number_line, refusal_line, row_line};
use peer_message_policy::policy::PeerMessagePolicy;
use refusal::Refusal;
use snapshot_reader::row::{FIRST_ROW, row_at};

// The longest snapshot: that of 1,024 rows.
pub const LONGEST_SNAPSHOT: usize = 124_024;

// How many lines name a number.
const NUMBERS: usize = 12;

// Where a scan stands: what reading the snapshot came to, the next line before the rows, and the place of the next row.
#[derive(Clone, Copy)]
pub struct Scan {
    pub made: Result<PeerMessagePolicy, Refusal>,
    pub line: usize,
    pub at: usize,
}

// One line to write, and the scan behind it.
#[derive(Clone, Copy)]
pub struct Handed {
    pub line: ShownLine,
    pub scan: Scan,
}

impl Scan {
    // A scan at its first line.
    fn begun(made: Result<PeerMessagePolicy, Refusal>) -> Scan
        ensures { result ≡ begun made }
    {
        Scan {
            made,
            line: 0,
            at: FIRST_ROW,
        }
    }

    // Reads the snapshot into the table. What is longer than any snapshot is refused as one whose layout is wrong.
    pub fn open(input: &[u8], table: &mut [u8]) -> Scan
        ensures { OpenMeets input.now table.old result table.new }
    {
        if input.len() > LONGEST_SNAPSHOT {
            return Scan::begun(Err(Refusal::WrongLayout));
        }
        Scan::begun(snapshot::policy::read(input, table))
    }

    // A line before the rows, and the scan behind it.
    fn following(self, line: ShownLine) -> Handed
        requires { self.line ≤ numbers }
        ensures { result ≡ following self line }
    {
        Handed {
            line,
            scan: Scan {
                line: self.line + 1,
                ..self
            },
        }
    }

    // The line of the row that the step gives, and the scan at the next one; behind the last row no line.
    fn row_next(self, input: &[u8]) -> Option<Handed>
        ensures { result ≡ row_handed self (step_at input.now self.at) }
    {
        let Ok(Some(step)) = row_at(input, self.at) else {
            return None;
        };
        Some(Handed {
            line: row_line(step.row),
            scan: Scan {
                at: step.at,
                ..self
            },
        })
    }

    // The next line of a policy: its numbers, the head where there are rows, the rows.
    fn policy_next(self, policy: PeerMessagePolicy, input: &[u8]) -> Option<Handed>
        ensures { result ≡ policy_next self policy input.now }
    {
        if self.line < NUMBERS {
            return Some(self.following(number_line(policy, self.line)));
        }
        if self.line > NUMBERS {
            return self.row_next(input);
        }
        if policy.rows == 0 {
            return None;
        }
        Some(self.following(head_line()))
    }

    // The one line of a refusal.
    fn refused_next(self, refusal: Refusal) -> Option<Handed>
        ensures { result ≡ refused_next self refusal }
    {
        if self.line > 0 {
            return None;
        }
        Some(self.following(refusal_line(refusal)))
    }

    // Kept: no Iterator, since a scan is a value that the caller keeps, and `next` is lent the input at each call.
    //
    // The next line to write; `None` where it is done. Scan and input are those that the call before left.
    pub fn next(self, input: &[u8]) -> Option<Handed>
        ensures { result ≡ next_of self input.now }
    {
        match self.made {
            Ok(policy) => self.policy_next(policy, input),
            Err(refusal) => self.refused_next(refusal),
        }
    }
}

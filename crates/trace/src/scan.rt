// The scan of an input: the settings line, then one event a line, each answered by one line.
ghost use Rattle.std.specs.Prelude.{◌≡◌};
ghost use Rattle.trace.specs.Scan.{following, no_policy, last, phase_behind, moved, EventsMeets, SettingsMeets, open_of, NextMeets};

use super::newline::line_end;
use super::settle::settle;
use super::step::{Answer, Stepped, speak, spoken_line, step};
use peer_message_policy::policy::PeerMessagePolicy;
use peer_settings::config::PeerMessagePolicyConfig;
use trace_lines::event::{Event, bad_event, parse_event};
use trace_lines::line::TraceLine;

// The longest input that is read.
pub const LONGEST_INPUT: usize = 65_536;

// The number of the settings line.
pub const FIRST_LINE: u64 = 1;

#[derive(Clone, Copy)]
pub enum Phase {
    TooLong,
    Settings,
    Events,
    Done,
}

// Where a scan stands: the place of the next line and its number, the policy, and what the next line is.
#[derive(Clone, Copy)]
pub struct Scan {
    pub at: usize,
    pub number: u64,
    pub policy: PeerMessagePolicy,
    pub phase: Phase,
}

// One line to write, the event that it answers with the answer that it spells, and the scan behind it. Where a line answers no event, the
// event is a bad one.
#[derive(Clone, Copy)]
pub struct Handed {
    pub event: Event,
    pub answer: Answer,
    pub line: TraceLine,
    pub scan: Scan,
}

// The number of the line behind one; a scan from `open` comes nowhere near the largest.
fn following(number: u64) -> u64
    ensures { result ≡ following number }
{
    number.saturating_add(1)
}

// What comes behind an event's line: nothing more where the trace does not go on.
fn phase_behind(goes_on: bool) -> Phase
    ensures { result ≡ phase_behind goes_on }
{
    if goes_on { Phase::Events } else { Phase::Done }
}

impl Scan {
    // A scan from the beginning of an input.
    pub fn open(input: &[u8]) -> Scan
        ensures { result ≡ open_of input.now }
    {
        let phase = if input.len() > LONGEST_INPUT {
            Phase::TooLong
        } else {
            Phase::Settings
        };
        Scan {
            at: 0,
            number: FIRST_LINE,
            policy: no_policy(),
            phase,
        }
    }

    // Kept: no Iterator, since each call is lent the table anew, which `Iterator::next` has no argument for.
    //
    // The next line to write, its event, and the scan behind it; where the scan is done, `Err` with the scan behind, which has the policy of
    // good settings that nothing follows. The scan, the input and the table are those that the call before left.
    pub fn next(self, input: &[u8], table: &mut [u8]) -> Result<Handed, Scan>
        ensures { NextMeets self input.now table.old result table.new }
    {
        match self.phase {
            Phase::TooLong => Ok(self.last(Answer::BadLine(FIRST_LINE))),
            Phase::Settings => self.next_settings(input, table),
            Phase::Events => self.next_event(input, table),
            Phase::Done => Err(self),
        }
    }

    // The answer to a line that is no event's, behind which nothing more is read.
    fn last(self, answer: Answer) -> Handed
        ensures { result ≡ last self answer }
    {
        Handed {
            event: bad_event(),
            answer,
            line: spoken_line(self.policy, speak(answer)),
            scan: Scan {
                phase: Phase::Done,
                ..self
            },
        }
    }

    // The scan behind an event's line, at this place.
    fn moved(self, at: usize, event: Event, step: Stepped) -> Handed
        ensures { result ≡ moved self at event step }
    {
        Handed {
            event,
            answer: step.answer,
            line: step.line,
            scan: Scan {
                at,
                number: following(self.number),
                policy: step.policy,
                phase: phase_behind(step.goes_on),
            },
        }
    }

    // The event's line at the scan's place; at the input's end the scan is done, and stays as it is.
    fn next_event(self, input: &[u8], table: &mut [u8]) -> Result<Handed, Scan>
        ensures { EventsMeets self input.now table.old result table.new }
    {
        if input.len() <= self.at {
            return Err(self);
        }
        let Some(end) = line_end(input, self.at) else {
            return Ok(self.last(Answer::BadLine(self.number)));
        };
        let event = parse_event(&input[self.at..end]);
        let stepped = step(self.policy, table, event, self.number);
        Ok(self.moved(end + 1, event, stepped))
    }

    // The settings line at the scan's place, and the event's line behind it.
    fn next_settings(self, input: &[u8], table: &mut [u8]) -> Result<Handed, Scan>
        ensures { SettingsMeets self input.now table.old result table.new }
    {
        let Some(end) = line_end(input, self.at) else {
            return Ok(self.last(Answer::BadLine(self.number)));
        };
        match settle(&input[self.at..end], self.number, table) {
            Err(stop) => Ok(self.last(Answer::from(stop))),
            Ok(policy) => {
                let behind = Scan {
                    at: end + 1,
                    number: following(self.number),
                    policy,
                    phase: Phase::Events,
                };
                behind.next_event(input, table)
            }
        }
    }
}

// What stands for the policy before the settings line is read.
fn no_policy() -> PeerMessagePolicy
    ensures { result ≡ no_policy }
{
    PeerMessagePolicy::fresh(PeerMessagePolicyConfig::default())
}

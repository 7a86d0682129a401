// A scan from its words, and its words again.
ghost use Rattle.std.specs.Prelude.{◌≡◌};
ghost use Rattle.c_trace.specs.Words.{phase_of, phase_number, scan_of, place_of, ScanLeft};

use c_words::{answers, words};
use trace::scan::{Phase, Scan};

// Kept: a number for a phase, and the other way round, are of the C interface, and `Phase` is a type of crate `trace`, so no `From` of it can
// stand here.
fn phase_of(n: u64) -> Phase
    ensures { result ≡ phase_of n }
{
    match n {
        0 => Phase::TooLong,
        1 => Phase::Settings,
        2 => Phase::Events,
        _ => Phase::Done,
    }
}

fn phase_number(phase: Phase) -> u64
    ensures { result ≡ phase_number phase }
{
    match phase {
        Phase::TooLong => 0,
        Phase::Settings => 1,
        Phase::Events => 2,
        Phase::Done => 3,
    }
}

pub(crate) fn scan_of(place: &[u64; 3], longs: &[u64; 8], shorts: &[u32; 4]) -> Scan
    ensures { result ≡ scan_of place.now longs.now shorts.now }
{
    Scan {
        at: place[0] as usize,
        number: place[1],
        policy: words::policy_of(longs, shorts),
        phase: phase_of(place[2]),
    }
}

fn place_of(scan: Scan) -> [u64; 3]
    ensures { result ≡ place_of scan }
{
    [scan.at as u64, scan.number, phase_number(scan.phase)]
}

// Leaves the words of a scan.
pub(crate) fn leave(place: &mut [u64; 3], longs: &mut [u64; 8], shorts: &mut [u32; 4], scan: Scan)
    ensures { ScanLeft scan place.new longs.new shorts.new }
{
    *place = place_of(scan);
    words::leave(longs, shorts, Ok((answers::DONE, scan.policy)));
}

// The recorded calls, over what is lent: subject 0 is a ban tracker, 1 a limiter, 2 a gossip state; then the operation, the violation, the
// bytes, the time and the side.
use crate::checksum;
use crate::held::{Held, says};
use c_bans::bans::uglezmir_bans;
use c_gossip::gossip::uglezmir_gossip;
use c_limiter::limiter::uglezmir_limiter;
use c_terms::reply::Reply;
use replay::line::Line;
use replay::record::{Record, low_half};

// Kept: each number of the recorded list stands in one match alone; an enum between would only name it once more.
pub(crate) fn answered(held: &mut Held, first: &mut [u8], second: &mut [u8], r: Record) -> Line {
    let reply = match r.first {
        0 => bans(held, first, r),
        1 => limiter(held, first, r),
        2 => gossip(held, first, second, r),
        _ => return says(b"unknown subject"),
    };
    Line::empty()
        .decimal(reply.number as u64)
        .then(reply.value)
        .then(held.longs[2])
        .then(held.longs[8])
        .then(checksum::of(held, first, second))
}

fn bans(held: &mut Held, table: &mut [u8], r: Record) -> Reply {
    let peer = held.peer;
    held.on_front(|longs, shorts, value| {
        uglezmir_bans(
            low_half(r.second),
            longs,
            shorts,
            table,
            &peer,
            low_half(r.third),
            r.fifth,
            value,
        )
    })
}

fn limiter(held: &mut Held, table: &mut [u8], r: Record) -> Reply {
    let peer = held.peer;
    let outpoint = held.outpoint;
    held.on_front(|longs, shorts, value| {
        uglezmir_limiter(
            low_half(r.second),
            longs,
            shorts,
            table,
            &peer,
            &outpoint,
            low_half(r.sixth),
            r.fifth,
            value,
        )
    })
}

fn gossip(held: &mut Held, ban_table: &mut [u8], outbound_table: &mut [u8], r: Record) -> Reply {
    let mut value = [0u64; 1];
    let number = uglezmir_gossip(
        low_half(r.second),
        &mut held.longs,
        &mut held.shorts,
        ban_table,
        outbound_table,
        &held.peer,
        low_half(r.third),
        r.fourth,
        r.fifth,
        &mut value,
    );
    Reply {
        number,
        value: value[0],
    }
}

// Walks for many addresses and translates many packets, for benchmarks/walk. Each result is one
// number, and the sum is over these numbers; benchmarks/walk/walk.h packs and sums in the same way.
#![tactic(auto)]

use packet::Refusal;
use translator::{Reply, Report};
use walk::{End, Mapping, Walk};

// Rotates the sum by one bit and adds the number, so that the order counts too.
fn add_to(sum: u64, number: u64) -> u64 {
    sum.rotate_right(1).wrapping_add(number)
}

// The low 12 bits of the base are 0.
fn pack_page(m: Mapping) -> u64 {
    let rights = u64::from(m.rights.r) * 64 + u64::from(m.rights.w) * 128;
    m.base | u64::from(m.exponent) | rights
}

fn pack_end(end: End) -> u64 {
    match end {
        End::Mapped(m) => pack_page(m),
        End::Unmapped => 0,
        End::NotLent => 2048,
    }
}

fn pack_visited(visited: u32) -> u64 {
    u64::from(visited) * 256
}

fn pack_walk(w: Walk) -> u64 {
    pack_end(w.end) | pack_visited(w.visited)
}

fn pack_reply(reply: Reply) -> u64 {
    match reply {
        Reply::Successful => 0,
        Reply::CompleterAbort => 2048,
    }
}

fn pack_replied(done: Report) -> u64 {
    pack_reply(done.reply) | pack_visited(done.visited) | done.length as u64
}

fn pack_translation(t: Result<Report, Refusal>) -> u64 {
    match t {
        Ok(done) => pack_replied(done),
        Err(r) => 65536 + u64::from(packet::number(r)),
    }
}

// The sum over the walks for these addresses.
#[unsafe(no_mangle)]
pub extern "C" fn proved_walks(table: &[u64], addresses: &[u64]) -> u64 {
    addresses.iter().fold(
        0,
        |sum, address| add_to(sum, pack_walk(walk::walk_tables(table, *address))),
    )
}

// The sum over the replies to these packets of 16 bytes.
#[unsafe(no_mangle)]
pub extern "C" fn proved_translations(
    host: u16,
    packets: &[u8],
    table: &[u64],
    out: &mut [u8],
) -> u64 {
    packets.chunks_exact(16).fold(
        0,
        |sum, p| add_to(
            sum,
            pack_translation(translator::translate(host, p, table, out)),
        ),
    )
}

// Writes the bytes of the state in hex, and computes their digest. The codes, and 0 for what is not
// there, are those of stored scripts.
#![tactic(auto)]

use atc::{Cache, Entry};
use pages::{Group, Interface, Pages};
use state::Function;
use tags::{PendingRead, PendingTranslation, TagState};
use test_records::Output;

fn put_entry(entry: Option<Entry>, out: &mut Output) {
    out.put(entry.is_some());
    if let Some(e) = entry {
        out.put(e.unit);
        out.put(e.to);
        out.put(u8::from(e.r) + 2 * u8::from(e.w) + 4 * u8::from(e.n) + 8 * u8::from(e.u));
    }
}

// `Cache` shows its slots by their index alone.
fn put_cache(cache: &Cache, out: &mut Output) {
    out.put(cache.evictions());
    for i in 0..32 {
        put_entry(cache.entry_at(i), out);
    }
}

// How many translations came in the first of two packets.
fn received_count(t: PendingTranslation) -> u16 {
    if t.due == 0 {
        0
    } else {
        t.whole.wrapping_sub(t.due) / 8
    }
}

fn put_translation(t: PendingTranslation, out: &mut Output) {
    out.put(t.address);
    out.put(1 + t.further % 16);
    out.put(t.stale);
    out.put((t.size % 256) as u8);
    out.put((received_count(t) % 256) as u8);
    out.put(t.due);
}

fn put_read(r: PendingRead, out: &mut Output) {
    out.put(r.address);
    out.put(r.bytes);
    out.put(r.due);
    out.put(r.translated);
    out.put(r.itags);
}

fn put_tag(state: TagState, out: &mut Output) {
    match state {
        TagState::Free => out.put(0u8),
        TagState::Translate(t) => {
            out.put(1u8);
            put_translation(t, out);
        }
        TagState::Read(r) => {
            out.put(2u8);
            put_read(r, out);
        }
    }
}

// The number of outstanding page requests of all groups.
fn requests(groups: &[Group]) -> u16 {
    groups
        .iter()
        .fold(0, |sum: u16, g| sum.wrapping_add(g.requests))
}

// Writes the allocation, the remaining credits, and the groups.
fn put_credits(p: &Pages, out: &mut Output) {
    out.put(p.allocation);
    out.put(p.allocation.wrapping_sub(requests(&p.groups)));
    for g in p.groups {
        out.put(g.requests);
        out.put(g.waits);
    }
}

fn put_pages(p: &Pages, out: &mut Output) {
    match p.interface {
        Interface::Off => out.put(0u8),
        Interface::On => {
            out.put(1u8);
            put_credits(p, out);
        }
        Interface::Stopped => out.put(2u8),
    }
}

// Writes the whole state, at most 2538 characters.
pub fn put_state(f: &Function, out: &mut Output) {
    out.put(f.id);
    out.put(f.stu);
    out.put((translations::boundary_bytes(f.rcb) % 256) as u8);
    out.put(f.enabled);
    out.put(f.agent.is_some());
    out.put(f.agent.unwrap_or(0));
    put_cache(&f.cache, out);
    for tag in f.tags {
        put_tag(tag, out);
    }
    out.put(f.waiting);
    put_pages(&f.pages, out);
}

fn digest(bytes: &[u8]) -> u32 {
    bytes.iter().fold(0, |h: u32, b| {
        ((u64::from(h) * 257 + u64::from(*b) + 1) % 4294967291) as u32
    })
}

// The digest of the state.
pub fn state_digest(f: &Function) -> u32 {
    let mut text = [0; 2538];
    let mut bytes = [0; 1269];
    let mut out = Output::new(&mut text);
    put_state(f, &mut out);
    test_lines::unhex(out.written(), &mut bytes).map_or(0, digest)
}

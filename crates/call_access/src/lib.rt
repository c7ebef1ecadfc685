// Access: a read or write through the cache; and look-up, which computes its target.
#![tactic(auto)]

ghost use Rattle.std.specs.Prelude.{◌≡◌, ◌≤◌};
ghost use Rattle.packet.specs.Numbers.{numbered};
ghost use Rattle.tags.specs.Tags.{free_tag};
ghost use Rattle.state.specs.Answers.{observed, commit};
ghost use Rattle.call_access.specs.Access.{is_in_page, payload_length_for, is_allowed, target_of, looking_up, memory_request_packet, read_on, write_to, accessing};

use atc::Entry;
use packet::{Access, Body, MemoryRequest, Packet, Refusal};
use state::{Answer, Effect, Function};

// An access reads or writes.
#[derive(Clone, Copy)]
pub enum Direction {
    Read,
    Write,
}

// An access to a number of DWORDs at an address.
#[derive(Clone, Copy)]
pub struct AccessArgs {
    pub direction: Direction,
    pub address: u64,
    pub dwords: u16,
}

// The target of an access: the address that is sent, and whether it is translated.
#[derive(Clone, Copy)]
pub struct Target {
    pub address: u64,
    pub translated: bool,
}

fn is_in_page(address: u64, dwords: u16) -> bool
    ensures { result ≡ is_in_page address dwords }
{
    1 <= dwords && dwords <= 32 && address % 4 == 0 && address % 4096 + 4 * dwords as u64 <= 4096
}

// The payload length of an access.
fn payload_length_for(direction: Direction, dwords: u16) -> usize
    ensures { result ≡ payload_length_for direction dwords }
{
    match direction {
        Direction::Read => 0,
        Direction::Write => 4 * dwords as usize,
    }
}

fn is_allowed(direction: Direction, e: Entry) -> bool
    ensures { result ≡ is_allowed direction e }
{
    match direction {
        Direction::Read => e.r,
        Direction::Write => e.w,
    }
}

fn target_of(stu: u8, address: u64, e: Entry) -> Target
    ensures { result ≡ target_of stu address e }
{
    if e.u {
        Target {
            address,
            translated: false,
        }
    } else {
        Target {
            address: ranges::relocate(e.to, address, ranges::unit_exponent(stu)),
            translated: true,
        }
    }
}

// The target of an access with `load` bytes of payload, or why it is refused. Nothing changes.
#[tactic(auto, using(lemmas::proofs::Cases::cases), unfolding(crate::specs::Access::looking_up))]
pub fn look_up(f: &Function, a: AccessArgs, load: usize) -> Result<Target, Refusal>
    ensures { numbered result ≡ looking_up f.now a load }
{
    if !f.enabled {
        return Err(Refusal::Disabled);
    }
    if !is_in_page(a.address, a.dwords) || load != payload_length_for(a.direction, a.dwords) {
        return Err(Refusal::BadArgument);
    }
    let unit = ranges::region(a.address, ranges::unit_exponent(f.stu)).first;
    let entry = f.cache.find(unit).ok_or(Refusal::NoEntry)?;
    if !is_allowed(a.direction, entry) {
        return Err(Refusal::NoPermission);
    }
    Ok(target_of(f.stu, a.address, entry))
}

fn memory_request_packet(id: u16, access: Access, dwords: u16, at: Target) -> Packet
    ensures { result ≡ memory_request_packet id access dwords at }
{
    Packet {
        head: state::head(id),
        body: Body::Mem(MemoryRequest {
            access,
            dwords,
            address: at.address,
            translated: at.translated,
        }),
    }
}

// Sends a read on the lowest free tag.
#[tactic(auto, unfolding(state::specs::Answers::sends))]
fn read_on(
    f: &mut Function,
    at: Target,
    a: AccessArgs,
    payload: &[u8],
    out: &mut [u8],
) -> Result<Effect, Refusal>
    requires { a.dwords ≤ 32 }
    ensures { observed f.new result out.new ≡ commit f.old out.old (read_on f.old (free_tag f.old.tags) at a payload.now out.old) }
{
    let Some(tag) = tags::lowest_free(&f.tags) else {
        return Err(Refusal::NoFreeTag);
    };
    let p = memory_request_packet(f.id, Access::Read(tag), a.dwords, at);
    let sent = tlp::write_packet(p, payload, out)?;
    let pending = tags::new_read(a.address, 4 * a.dwords, at.translated);
    tags::set_tag(&mut f.tags, tag, pending);
    Ok(Effect {
        answer: Answer::Opened(tag),
        sent,
    })
}

#[tactic(auto, unfolding(state::specs::Answers::sends))]
fn write_to(
    f: &mut Function,
    at: Target,
    dwords: u16,
    payload: &[u8],
    out: &mut [u8],
) -> Result<Effect, Refusal>
    ensures { observed f.new result out.new ≡ commit f.old out.old (write_to f.old at dwords payload.now out.old) }
{
    let p = memory_request_packet(f.id, Access::Write, dwords, at);
    let sent = tlp::write_packet(p, payload, out)?;
    Ok(Effect {
        answer: Answer::Done,
        sent,
    })
}

// Sends a read or a write.
#[tactic(auto, using(crate::proofs::Laws::few_dwords), unfolding(crate::specs::Access::accessing))]
pub fn access(
    f: &mut Function,
    a: AccessArgs,
    payload: &[u8],
    out: &mut [u8],
) -> Result<Effect, Refusal>
    ensures { observed f.new result out.new ≡ commit f.old out.old (accessing f.old a payload.now out.old) }
{
    let at = look_up(f, a, payload.len())?;
    match a.direction {
        Direction::Read => read_on(f, at, a, payload, out),
        Direction::Write => write_to(f, at, a.dwords, payload, out),
    }
}

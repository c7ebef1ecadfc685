// Reading a packet. The order of the refusals is here and in `order`; the kinds
// are in `forms` and `fields`.
#![tactic(auto)]

mod fields;
mod forms;
mod nums;
mod order;

ghost use Rattle.std.specs.Prelude.{◌≡◌, ◌≤◌, length, drop};
ghost use Rattle.packet.specs.Frames.{decode_common, decode_frame};
ghost use Rattle.packet.specs.Reading.{reading, payload_in, qword_at};
ghost use Rattle.packet.specs.Numbers.{numbered};

use packet::{Common, Frame, Packet, Refusal};

fn decode_common(b: &[u8]) -> Common
    requires { 12 ≤ length b.now }
    ensures { result ≡ decode_common b.now }
{
    Common {
        tc: b[1] / 16 % 8,
        attr: b[1] / 4 % 2 * 4 + b[2] / 16 % 4,
        marks: b[2] / 64,
        sender: nums::num16(b, 4),
    }
}

#[tactic(auto, unfolding(packet::specs::Frames::decode_frame))]
fn decode_frame(b: &[u8]) -> Frame
    requires { 12 ≤ length b.now }
    ensures { result ≡ decode_frame b.now }
{
    Frame {
        byte0: b[0],
        common: decode_common(b),
        at: b[2] / 4 % 4,
        dwords: u16::from(b[2]) % 4 * 256 + u16::from(b[3]),
        byte6: b[6],
        byte7: b[7],
        dword8: nums::num32(b, 8),
        dword12: nums::dword12(b),
        body: nums::body(b),
    }
}

// Reads a packet, or says with which refusal it is rejected.
#[tactic(auto, using(lemmas::proofs::Cases::cases), unfolding(packet::specs::Reading::reading))]
pub fn read_packet(b: &[u8]) -> Result<Packet, Refusal>
    ensures { numbered result ≡ reading b.now }
{
    if b.len() < 12 || 144 < b.len() {
        return Err(Refusal::BadLength);
    }
    let f = decode_frame(b);
    let m = forms::choice(f.byte0, f.byte7).ok_or(Refusal::UnsupportedKind)?;
    order::read_form(m, f, b.len())
}

// The bytes of a packet from byte n on, without a copy. Empty if the packet is shorter.
pub fn part_from(b: &[u8], n: usize) -> &[u8]
    ensures { result.now ≡ drop n b.now }
{
    b.get(n..).unwrap_or(&[])
}

// The payload of a readable packet, without a copy.
#[tactic(auto, using(lemmas::proofs::Cases::cases), unfolding(packet::specs::Reading::payload_in))]
pub fn payload(b: &[u8]) -> &[u8]
    ensures { result.now ≡ payload_in b.now }
{
    if b.len() < 12 {
        return &[];
    }
    match forms::choice(b[0], b[7]) {
        Some(m) => part_from(b, packet::payload_offset(m)),
        None => &[],
    }
}

// QWORD k of a payload, or 0 past the last whole one, as `qword_at` has it.
#[tactic(auto, using(lemmas::proofs::Cases::cases), unfolding(packet::specs::Reading::qword_at))]
pub fn qword(payload: &[u8], k: usize) -> u64
    ensures { result ≡ qword_at payload.now k }
{
    if k < payload.len() / 8 {
        nums::num64(payload, 8 * k)
    } else {
        0
    }
}

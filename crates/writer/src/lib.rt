// Writing a packet. The order of the refusals is here; fields and frames are in
// `limits` and `frames`.
#![tactic(auto)]

mod frames;
mod limits;

ghost use Rattle.std.specs.Prelude.{◌≡◌, ◌/◌, ◌%◌, [], ◌∷◌, ◌++◌, ◌+◌, ◌≤◌, length, drop};
ghost use Rattle.packet.specs.Frames.{encode_frame, four_bytes, eight_bytes};
ghost use Rattle.packet.specs.Forms.{payload_offset};
ghost use Rattle.packet.specs.Kinds.{form_of};
ghost use Rattle.packet.specs.Writing.{bytes_of, check_room, writing, buffer_after};
ghost use Rattle.packet.specs.Numbers.{numbered};

use packet::{Frame, Packet, Refusal, payload_offset};

// These three give `to_be_bytes` the words of the specs. One generic function would need a trait with
// a law for each type.
fn two_bytes(n: u16) -> [u8; 2]
    ensures { result ≡ (n / 256 % 256) ∷ (n % 256) ∷ [] }
{
    n.to_be_bytes()
}

fn four_bytes(n: u32) -> [u8; 4]
    ensures { result ≡ four_bytes n }
{
    n.to_be_bytes()
}

fn eight_bytes(n: u64) -> [u8; 8]
    ensures { result ≡ eight_bytes n }
{
    n.to_be_bytes()
}

// Encodes a frame as 24 bytes.
fn encode_frame(f: Frame) -> [u8; 24]
    ensures { result ≡ encode_frame f }
{
    let common = f.common;
    let [length_high, length_low] = two_bytes(f.dwords % 1024);
    let [sender_high, sender_low] = two_bytes(common.sender);
    let [b8, b9, b10, b11] = four_bytes(f.dword8);
    let [b12, b13, b14, b15] = four_bytes(f.dword12);
    let [b16, b17, b18, b19, b20, b21, b22, b23] = eight_bytes(f.body);
    [
        f.byte0,
        common.tc % 8 * 16 + common.attr / 4 % 2 * 4,
        common.attr % 4 * 16 + f.at % 4 * 4 + length_high,
        length_low,
        sender_high,
        sender_low,
        f.byte6,
        f.byte7,
        b8,
        b9,
        b10,
        b11,
        b12,
        b13,
        b14,
        b15,
        b16,
        b17,
        b18,
        b19,
        b20,
        b21,
        b22,
        b23,
    ]
}

// Copies `src` to the start of `dst`.
fn copy(src: &[u8], dst: &mut [u8])
    requires { length src.now ≤ length dst.old }
    ensures { dst.new ≡ src.now ++ drop (length src.now) dst.old }
{
    let n = src.len();
    dst[..n].copy_from_slice(src);
}

// Copies a front and a payload to the start of `out`.
fn lay(front: &[u8], payload: &[u8], out: &mut [u8])
    requires { length front.now + length payload.now ≤ length out.old }
    ensures { out.new ≡ (front.now ++ payload.now) ++ drop (length (front.now ++ payload.now)) out.old }
{
    let n = front.len();
    copy(front, out);
    copy(payload, &mut out[n..]);
}

// Writes the packet to the start of `out`.
#[tactic(auto, using(crate::proofs::Copies::front_length), unfolding(packet::specs::Writing::bytes_of))]
fn put(p: Packet, payload: &[u8], out: &mut [u8])
    requires { payload_offset (form_of p.body) + length payload.now ≤ length out.old }
    ensures { out.new ≡ bytes_of p payload.now ++ drop (length (bytes_of p payload.now)) out.old }
{
    let n = payload_offset(frames::form_of(p.body));
    let front = encode_frame(frames::packet_frame(p.head, p.body));
    lay(&front[..n], payload, out);
}

fn check_room(n: usize, room: usize) -> Result<usize, Refusal>
    ensures { numbered result ≡ check_room n room }
{
    if room < n {
        return Err(Refusal::BufferTooShort);
    }
    Ok(n)
}

// The result of writing, for a payload of `load` bytes and a buffer of `room` bytes.
#[tactic(auto, using(lemmas::proofs::Cases::cases), unfolding(packet::specs::Writing::writing))]
fn answer(p: Packet, load: usize, room: usize) -> Result<usize, Refusal>
    ensures { numbered result ≡ writing p load room }
{
    let tc = p.head.tc;
    let body = p.body;
    let within = limits::are_fields_in_range(tc, body);
    let due = limits::payload_length(body);
    let allowed = packet::is_allowed(tc, body);
    if !within || load != due {
        return Err(Refusal::BadArgument);
    }
    if !allowed {
        return Err(Refusal::ForbiddenValue);
    }
    check_room(payload_offset(frames::form_of(body)) + load, room)
}

// Writes a packet to the start of `out`. A refused packet leaves `out` unchanged.
#[tactic(auto, using(packet::proofs::Laws::accepted))]
pub fn write_packet(p: Packet, payload: &[u8], out: &mut [u8]) -> Result<usize, Refusal>
    ensures answer { numbered result ≡ writing p (length payload.now) (length out.old) }
    ensures buffer { out.new ≡ buffer_after (writing p (length payload.now) (length out.old)) (bytes_of p payload.now) out.old }
{
    let written = answer(p, payload.len(), out.len())?;
    put(p, payload, out);
    Ok(written)
}

// Tests whether each field fits its bits, and computes the payload length of a packet.
ghost use Rattle.std.specs.Prelude.{◌≡◌, ◌&&◌, ◌≤◌, ltb};
ghost use Rattle.packet.specs.Kinds.{outcome_in_range, body_in_range, access_payload_length, outcome_payload_length, payload_length};

use packet::{Access, Body, Outcome, dword_count};

fn is_outcome_in_range(o: Outcome) -> bool
    ensures { result ≡ outcome_in_range o }
{
    match o {
        Outcome::Data(dwords) => dwords < 1024,
        Outcome::Status(status) => status < 8,
    }
}

#[tactic(auto, unfolding(packet::specs::Kinds::body_in_range))]
fn is_body_in_range(body: Body) -> bool
    ensures { result ≡ body_in_range body }
{
    match body {
        Body::Tr(t) => t.dwords < 1024 && t.address % 4096 == 0,
        Body::Mem(m) => m.dwords < 1024 && m.address % 4 == 0,
        Body::Cpl(c) => c.count < 4096 && c.lower < 128 && is_outcome_in_range(c.outcome),
        Body::Inv(i) => i.itag.0 < 32 && i.address % 4096 == 0,
        Body::Ic(i) => i.cc < 8,
        Body::Prq(q) => q.page % 4096 == 0 && q.index.0 < 512,
        Body::Prs(s) => s.code < 16 && s.index.0 < 512,
    }
}

// Does each field fit its bits?
pub(crate) fn are_fields_in_range(tc: u8, body: Body) -> bool
    ensures { result ≡ (ltb tc 8 && body_in_range body) }
{
    tc < 8 && is_body_in_range(body)
}

fn access_payload_length(a: Access, dwords: u16) -> usize
    ensures { (result ≡ access_payload_length a dwords) × (result ≤ 262140) }
{
    match a {
        Access::Read(_) => 0,
        Access::Write => dword_count(dwords) * 4,
    }
}

fn outcome_payload_length(o: Outcome) -> usize
    ensures { (result ≡ outcome_payload_length o) × (result ≤ 262140) }
{
    match o {
        Outcome::Data(dwords) => dword_count(dwords) * 4,
        Outcome::Status(_) => 0,
    }
}

// The payload length that the packet must be given.
#[tactic(auto, unfolding(packet::specs::Kinds::payload_length))]
pub(crate) fn payload_length(body: Body) -> usize
    ensures { (result ≡ payload_length body) × (result ≤ 262140) }
{
    match body {
        Body::Tr(_) => 0,
        Body::Mem(m) => access_payload_length(m.access, m.dwords),
        Body::Cpl(c) => outcome_payload_length(c.outcome),
        Body::Inv(_) => 0,
        Body::Ic(_) => 0,
        Body::Prq(_) => 0,
        Body::Prs(_) => 0,
    }
}

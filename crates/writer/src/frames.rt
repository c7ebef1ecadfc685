// The form and the frame of a packet, kind by kind.
ghost use Rattle.std.specs.Prelude.{◌≡◌, cond, ◌≤◌};
ghost use Rattle.packet.specs.declared.Body.TheVariants.{Tr, Mem, Cpl, Inv, Ic, Prq, Prs};
ghost use Rattle.packet.specs.declared.Form.TheVariants.{Mrd32, Mrd64, Mwr32, Mwr64};
ghost use Rattle.packet.specs.Forms.{byte0_of};
ghost use Rattle.packet.specs.Kinds.{needs64_bits, access_form, outcome_form, form_of, bit_of, address_dword8, address_dword12, access_tag, outcome_dwords, outcome_status, attr_bits, common_of, packet_frame};

use packet::{
    Access, Attr, Body, Common, Completion, Form, Frame, Head, InvalidateCompletion,
    InvalidateRequest, MemoryRequest, Outcome, PageRequest, PrgResponse, TranslationRequest,
    byte_enables,
};

// `u8::from` and its bound at each of the nine uses is no plainer.
fn bit(b: bool) -> u8
    ensures { (result ≡ bit_of b) × (result ≤ 1) }
{
    u8::from(b)
}

// The form with a 64-bit address only if the address needs it.
fn form_for(a: u64, narrow: Form, wide: Form) -> Form
    ensures { result ≡ cond (needs64_bits a) wide narrow }
{
    if 4294967296 <= a { wide } else { narrow }
}

fn read_form(a: u64) -> Form
    ensures { result ≡ cond (needs64_bits a) Mrd64 Mrd32 }
{
    form_for(a, Form::Mrd32, Form::Mrd64)
}

fn access_form(access: Access, a: u64) -> Form
    ensures { result ≡ access_form access a }
{
    match access {
        Access::Read(_) => read_form(a),
        Access::Write => form_for(a, Form::Mwr32, Form::Mwr64),
    }
}

fn outcome_form(o: Outcome) -> Form
    ensures { result ≡ outcome_form o }
{
    match o {
        Outcome::Data(_) => Form::CplData,
        Outcome::Status(_) => Form::CplNoData,
    }
}

// The form of a packet; 64-bit only if the address needs it.
#[tactic(auto, unfolding(packet::specs::Kinds::form_of))]
pub(crate) fn form_of(body: Body) -> Form
    ensures { result ≡ form_of body }
{
    match body {
        Body::Tr(t) => read_form(t.address),
        Body::Mem(m) => access_form(m.access, m.address),
        Body::Cpl(c) => outcome_form(c.outcome),
        Body::Inv(_) => Form::InvReq,
        Body::Ic(_) => Form::InvCpl,
        Body::Prq(_) => Form::PageReq,
        Body::Prs(_) => Form::PrgResp,
    }
}

fn byte0(m: Form) -> u8
    ensures { result ≡ byte0_of m }
{
    match m {
        Form::Mrd32 => 0x00,
        Form::Mrd64 => 0x20,
        Form::Mwr32 => 0x40,
        Form::Mwr64 => 0x60,
        Form::CplNoData => 0x0A,
        Form::CplData => 0x4A,
        Form::InvReq => 0x72,
        Form::InvCpl => 0x32,
        Form::PageReq => 0x30,
        Form::PrgResp => 0x32,
    }
}

fn address_dword8(a: u64) -> u32
    ensures { result ≡ address_dword8 a }
{
    if 4294967296 <= a {
        (a / 4294967296) as u32
    } else {
        a as u32
    }
}

fn address_dword12(a: u64) -> u32
    ensures { result ≡ address_dword12 a }
{
    if 4294967296 <= a {
        (a % 4294967296) as u32
    } else {
        0
    }
}

#[tactic(auto, unfolding(packet::specs::Kinds::packet_frame, packet::specs::Kinds::form_of))]
fn tr(common: Common, t: TranslationRequest) -> Frame
    ensures { result ≡ packet_frame common (Tr t) }
{
    let a = t.address / 4096 * 4096 + bit(t.nowrite) as u64;
    Frame {
        byte0: byte0(read_form(t.address)),
        common,
        at: 1,
        dwords: t.dwords,
        byte6: t.tag.0,
        byte7: 0xFF,
        dword8: address_dword8(a),
        dword12: address_dword12(a),
        body: 0,
    }
}

fn access_tag(a: Access) -> u8
    ensures { result ≡ access_tag a }
{
    match a {
        Access::Read(tag) => tag.0,
        Access::Write => 0,
    }
}

#[tactic(auto, unfolding(packet::specs::Kinds::packet_frame, packet::specs::Kinds::form_of))]
fn mem(common: Common, m: MemoryRequest) -> Frame
    ensures { result ≡ packet_frame common (Mem m) }
{
    Frame {
        byte0: byte0(access_form(m.access, m.address)),
        common,
        at: bit(m.translated) * 2,
        dwords: m.dwords,
        byte6: access_tag(m.access),
        byte7: byte_enables(m.dwords),
        dword8: address_dword8(m.address),
        dword12: address_dword12(m.address),
        body: 0,
    }
}

fn outcome_dwords(o: Outcome) -> u16
    ensures { result ≡ outcome_dwords o }
{
    match o {
        Outcome::Data(dwords) => dwords,
        Outcome::Status(_) => 0,
    }
}

fn outcome_status(o: Outcome) -> u8
    ensures { result ≡ outcome_status o }
{
    match o {
        Outcome::Data(_) => 0,
        Outcome::Status(status) => status,
    }
}

#[tactic(auto, unfolding(packet::specs::Kinds::packet_frame, packet::specs::Kinds::form_of))]
fn cpl(common: Common, c: Completion) -> Frame
    ensures { result ≡ packet_frame common (Cpl c) }
{
    Frame {
        byte0: byte0(outcome_form(c.outcome)),
        common,
        at: 0,
        dwords: outcome_dwords(c.outcome),
        byte6: outcome_status(c.outcome) % 8 * 32 + (c.count / 256 % 16) as u8,
        byte7: (c.count % 256) as u8,
        dword8: c.requester as u32 * 65536 + c.tag.0 as u32 * 256 + c.lower as u32,
        dword12: 0,
        body: 0,
    }
}

#[tactic(auto, unfolding(packet::specs::Kinds::packet_frame))]
fn inv(common: Common, i: InvalidateRequest) -> Frame
    ensures { result ≡ packet_frame common (Inv i) }
{
    Frame {
        byte0: 0x72,
        common,
        at: 0,
        dwords: 2,
        byte6: i.itag.0,
        byte7: 0x01,
        dword8: i.device as u32 * 65536,
        dword12: 0,
        body: i.address / 4096 * 4096 + bit(i.sized) as u64 * 2048,
    }
}

#[tactic(auto, unfolding(packet::specs::Kinds::packet_frame))]
fn ic(common: Common, i: InvalidateCompletion) -> Frame
    ensures { result ≡ packet_frame common (Ic i) }
{
    Frame {
        byte0: 0x32,
        common,
        at: 0,
        dwords: 0,
        byte6: 0,
        byte7: 0x02,
        dword8: i.device as u32 * 65536 + i.cc as u32,
        dword12: i.vector,
        body: 0,
    }
}

#[tactic(auto, unfolding(packet::specs::Kinds::packet_frame))]
fn prq(common: Common, q: PageRequest) -> Frame
    ensures { result ≡ packet_frame common (Prq q) }
{
    let a = q.page / 4096 * 4096
        + q.index.0 as u64 % 512 * 8
        + bit(q.last) as u64 * 4
        + bit(q.write) as u64 * 2
        + bit(q.read) as u64;
    Frame {
        byte0: 0x30,
        common,
        at: 0,
        dwords: 0,
        byte6: 0,
        byte7: 0x04,
        dword8: (a / 4294967296) as u32,
        dword12: (a % 4294967296) as u32,
        body: 0,
    }
}

#[tactic(auto, unfolding(packet::specs::Kinds::packet_frame))]
fn prs(common: Common, s: PrgResponse) -> Frame
    ensures { result ≡ packet_frame common (Prs s) }
{
    Frame {
        byte0: 0x32,
        common,
        at: 0,
        dwords: 0,
        byte6: 0,
        byte7: 0x05,
        dword8: s.device as u32 * 65536 + s.code as u32 % 16 * 4096 + s.index.0 as u32 % 512,
        dword12: 0,
        body: 0,
    }
}

fn attr_bits(a: Attr) -> u8
    ensures { result ≡ attr_bits a }
{
    bit(a.ido) * 4 + bit(a.relaxed) * 2 + bit(a.nosnoop)
}

// The common fields of a packet with this head.
fn common(h: Head) -> Common
    ensures { result ≡ common_of h }
{
    Common {
        tc: h.tc,
        attr: attr_bits(h.attr),
        marks: 0,
        sender: h.sender,
    }
}

// The frame of a packet.
pub(crate) fn packet_frame(h: Head, body: Body) -> Frame
    ensures { result ≡ packet_frame (common_of h) body }
{
    let common = common(h);
    match body {
        Body::Tr(t) => tr(common, t),
        Body::Mem(m) => mem(common, m),
        Body::Cpl(c) => cpl(common, c),
        Body::Inv(i) => inv(common, i),
        Body::Ic(i) => ic(common, i),
        Body::Prq(q) => prq(common, q),
        Body::Prs(s) => prs(common, s),
    }
}

// The form of a packet, which byte 0 selects, and for a message byte 7; and the
// tests of a header of that form.
ghost use Rattle.std.specs.Prelude.{◌≡◌};
ghost use Rattle.packet.specs.Forms.{choose, packet_length};
ghost use Rattle.packet.specs.Kinds.{well_formed_mem, well_formed_read_request, well_formed64, well_formed};

use packet::{Form, Frame, byte_enables, dword_count};

// The form that byte 0 and byte 7 select.
#[tactic(auto, using(lemmas::proofs::Cases::cases), unfolding(packet::specs::Forms::choose))]
pub(crate) fn choice(byte0: u8, byte7: u8) -> Option<Form>
    ensures { result ≡ choose byte0 byte7 }
{
    match (byte0, byte7) {
        (0x00, _) => Some(Form::Mrd32),
        (0x20, _) => Some(Form::Mrd64),
        (0x40, _) => Some(Form::Mwr32),
        (0x60, _) => Some(Form::Mwr64),
        (0x0A, _) => Some(Form::CplNoData),
        (0x4A, _) => Some(Form::CplData),
        (0x72, 0x01) => Some(Form::InvReq),
        (0x32, 0x02) => Some(Form::InvCpl),
        (0x32, 0x05) => Some(Form::PrgResp),
        (0x30, 0x04) => Some(Form::PageReq),
        _ => None,
    }
}

// How many bytes a packet of this form and Length has.
pub(crate) fn length_of(m: Form, dwords: u16) -> usize
    ensures { result ≡ packet_length m dwords }
{
    match m {
        Form::Mrd32 => 12,
        Form::Mrd64 => 16,
        Form::Mwr32 => 12 + dword_count(dwords) * 4,
        Form::Mwr64 => 16 + dword_count(dwords) * 4,
        Form::CplNoData => 12,
        Form::CplData => 12 + dword_count(dwords) * 4,
        Form::InvReq => 16 + dword_count(dwords) * 4,
        Form::InvCpl => 16,
        Form::PageReq => 16,
        Form::PrgResp => 16,
    }
}

fn is_well_formed_mem(f: Frame) -> bool
    ensures { result ≡ well_formed_mem f }
{
    f.at % 2 == 0 && f.byte7 == byte_enables(f.dwords)
}

fn is_well_formed_read_request(f: Frame) -> bool
    ensures { result ≡ well_formed_read_request f }
{
    if f.at == 1 {
        f.byte7 == 0xFF
    } else {
        is_well_formed_mem(f)
    }
}

// A 64-bit form is well formed where the 32-bit form would be, and the upper
// half of its address is not zero.
fn is_well_formed_64(f: Frame, rest: bool) -> bool
    ensures { result ≡ well_formed64 f rest }
{
    0 < f.dword8 && rest
}

// Does the header have only values that its form allows?
#[tactic(auto, unfolding(packet::specs::Kinds::well_formed))]
pub(crate) fn is_well_formed(m: Form, f: Frame) -> bool
    ensures { result ≡ well_formed m f }
{
    match m {
        Form::Mrd32 => is_well_formed_read_request(f),
        Form::Mrd64 => is_well_formed_64(f, is_well_formed_read_request(f)),
        Form::Mwr32 => is_well_formed_mem(f),
        Form::Mwr64 => is_well_formed_64(f, is_well_formed_mem(f)),
        Form::CplNoData => true,
        Form::CplData => f.byte6 / 32 == 0,
        Form::InvReq => f.dwords == 2,
        Form::InvCpl => true,
        Form::PageReq => true,
        Form::PrgResp => true,
    }
}

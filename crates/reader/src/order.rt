// The refusals of a packet whose form is known, in their order.
ghost use Rattle.std.specs.Prelude.{◌≡◌};
ghost use Rattle.packet.specs.Reading.{read_form};
ghost use Rattle.packet.specs.Numbers.{numbered};

use crate::{fields, forms};
use packet::{Form, Frame, Packet, Refusal};

// Reads a packet of form m and n bytes from its frame. Form and frame stay two arguments, as in the
// definitions.
#[tactic(auto, using(lemmas::proofs::Cases::cases), unfolding(packet::specs::Reading::read_form))]
pub(crate) fn read_form(m: Form, f: Frame, n: usize) -> Result<Packet, Refusal>
    ensures { numbered result ≡ read_form m f n }
{
    let expected = forms::length_of(m, f.dwords);
    let marks = f.common.marks;
    if n != expected {
        return Err(Refusal::BadLength);
    }
    if marks != 0 {
        return Err(Refusal::PoisonedOrDigest);
    }
    let head = fields::head(f.common);
    let body = fields::fields(m, f);
    if forms::is_well_formed(m, f) && packet::is_allowed(head.tc, body) {
        Ok(Packet { head, body })
    } else {
        Err(Refusal::ForbiddenValue)
    }
}

// The call that receives a packet, and the payload that it returns.
#![tactic(auto)]

ghost use Rattle.std.specs.Prelude.{◌≡◌, []};
ghost use Rattle.state.specs.Answers.{observed, commit, answer_result};
ghost use Rattle.call_receive.specs.Responses.{responded};
ghost use Rattle.call_receive.specs.Receive.{taken, received, is_payload, payload_for};

use packet::{Body, PrgIndex, Refusal};
use pages::{Interface, Pages};
use state::{Answer, Effect, Function};

// Handles a PRG Response.
#[tactic(auto, using(state::proofs::Commits::commits), unfolding(crate::specs::Responses::responded_on))]
fn respond(f: &mut Function, code: u8, k: PrgIndex) -> Result<Effect, Refusal>
    ensures { observed f.new result [] ≡ commit f.old [] (responded f.old code k f.old.pages.interface) }
{
    if !matches!(f.pages.interface, Interface::On) {
        return Err(Refusal::NothingPending);
    }
    if 1 < code {
        f.pages = Pages::stopped();
        return state::answered(Answer::Done);
    }
    if !f.pages.is_waiting(k) {
        return Err(Refusal::NothingPending);
    }
    f.pages.close(k);
    state::answered(Answer::Done)
}

// Handles a packet of a kind that a Function receives, if it is addressed to this one.
#[tactic(auto, unfolding(crate::specs::Receive::taken))]
fn take(f: &mut Function, from: u16, load: &[u8], body: Body) -> Result<Effect, Refusal>
    ensures { observed f.new result [] ≡ commit f.old [] (taken f.old from load.now body) }
{
    match body {
        Body::Cpl(c) if c.requester == f.id => on_completion::complete(f, c, load),
        Body::Inv(i) if i.device == f.id => on_invalidate::invalidate(f, from, i),
        Body::Prs(s) if s.device == f.id => respond(f, s.code, s.index),
        Body::Cpl(_) | Body::Inv(_) | Body::Prs(_) => Err(Refusal::OtherFunction),
        Body::Tr(_) | Body::Mem(_) | Body::Ic(_) | Body::Prq(_) => Err(Refusal::UnsupportedKind),
    }
}

// Receives a packet. The bytes can be anything.
#[tactic(auto, unfolding(crate::specs::Receive::received))]
pub fn receive(f: &mut Function, b: &[u8]) -> Result<Effect, Refusal>
    ensures { observed f.new result [] ≡ commit f.old [] (received f.old b.now) }
{
    let p = tlp::read_packet(b)?;
    take(f, p.head.sender, tlp::payload(b), p.body)
}

fn is_payload(answer: Result<Effect, Refusal>) -> bool
    ensures { result ≡ is_payload (answer_result answer) }
{
    matches!(
        answer,
        Ok(Effect {
            answer: Answer::PayloadMore | Answer::PayloadLast,
            ..
        })
    )
}

// The payload to return after `receive` of these bytes gave this answer: the packet's payload if it
// was a completion with data for a read, otherwise empty.
#[tactic(auto, using(lemmas::proofs::Cases::cases), unfolding(crate::specs::Receive::payload_for))]
pub fn payload_of(answer: Result<Effect, Refusal>, b: &[u8]) -> &[u8]
    ensures { result.now ≡ payload_for (answer_result answer) b.now }
{
    if is_payload(answer) {
        tlp::payload(b)
    } else {
        &[]
    }
}

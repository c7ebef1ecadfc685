// Drain: one Invalidate Completion for the waiting ITags that no read delays.
#![tactic(auto)]

ghost use Rattle.std.specs.Prelude.{◌≡◌};
ghost use Rattle.state.specs.Answers.{observed, commit};
ghost use Rattle.call_send.specs.Drain.{agent_id, invalidate_completion_packet, ready_of, sends_vector, draining};

use packet::{Body, InvalidateCompletion, Packet, Refusal};
use state::{Answer, Effect, Function};

// 0 where no agent is known, since the packet has an ID in any case.
fn agent_id(agent: Option<u16>) -> u16
    ensures { result ≡ agent_id agent }
{
    agent.unwrap_or(0)
}

fn invalidate_completion_packet(id: u16, agent: Option<u16>, v: u32) -> Packet
    ensures { result ≡ invalidate_completion_packet id agent v }
{
    Packet {
        head: state::head(id),
        body: Body::Ic(InvalidateCompletion {
            device: agent_id(agent),
            cc: 1,
            vector: v,
        }),
    }
}

// The waiting ITags that no outstanding read delays.
pub fn ready(f: &Function) -> u32
    ensures { result ≡ ready_of f.now }
{
    let delayed = tags::delayed_itags(&f.tags);
    tags::itags::without(f.waiting, delayed)
}

// Sends one Invalidate Completion for a vector of ITags, if it is not empty.
#[tactic(auto, using(state::proofs::Commits::commits), unfolding(crate::specs::Drain::sends_vector, state::specs::Answers::sends))]
fn send_vector(f: &mut Function, v: u32, out: &mut [u8]) -> Result<Effect, Refusal>
    ensures { observed f.new result out.new ≡ commit f.old out.old (sends_vector f.old v out.old) }
{
    if v == 0 {
        return state::answered(Answer::Carried(0));
    }
    let p = invalidate_completion_packet(f.id, f.agent, v);
    let sent = tlp::write_packet(p, &[], out)?;
    let answer = Answer::Carried(v.count_ones());
    f.waiting = tags::itags::without(f.waiting, v);
    Ok(Effect { answer, sent })
}

// Sends one Invalidate Completion for all ready ITags, if there are any.
pub fn drain(f: &mut Function, out: &mut [u8]) -> Result<Effect, Refusal>
    ensures { observed f.new result out.new ≡ commit f.old out.old (draining f.old out.old) }
{
    let v = ready(f);
    send_vector(f, v, out)
}

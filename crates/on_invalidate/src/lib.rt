// Invalidate Requests: overlapping entries are deleted, overlapping Translation Requests become
// stale, overlapping translated reads delay the ITag.
#![tactic(auto)]

ghost use Rattle.std.specs.Prelude.{◌≡◌, []};
ghost use Rattle.state.specs.Answers.{observed, commit};
ghost use Rattle.on_invalidate.specs.Invalidate.{invalidated_range, is_other_agent, invalidated_by, invalidated};

use packet::{InvalidateRequest, Refusal};
use ranges::Range;
use state::{Answer, Effect, Function};

// The range of an Invalidate Request, rounded up to the unit.
#[tactic(auto, unfolding(crate::specs::Invalidate::invalidated_range))]
fn invalidated_range(stu: u8, i: InvalidateRequest) -> Range
    ensures { result ≡ invalidated_range stu i }
{
    let exponent = ranges::size_of(i.address, i.sized).unwrap_or(64);
    ranges::rounded(i.address, exponent, ranges::unit_exponent(stu))
}

fn is_other_agent(agent: Option<u16>, from: u16) -> bool
    ensures { result ≡ is_other_agent agent from }
{
    agent.is_some_and(|id| id != from)
}

// Deletes entries, marks Translation Requests stale and lets reads delay the ITag, all in one step.
fn invalidate_by(f: &mut Function, from: u16, i: InvalidateRequest)
    ensures { f.new ≡ invalidated_by f.old from i }
{
    let range = invalidated_range(f.stu, i);
    f.cache.drop_range(f.stu, range);
    tags::invalidate(&mut f.tags, range, i.itag);
    f.waiting = tags::itags::with(f.waiting, i.itag);
    f.agent = Some(from);
}

// Handles an Invalidate Request from the agent `from`.
#[tactic(auto, using(state::proofs::Commits::commits), unfolding(crate::specs::Invalidate::invalidated))]
pub fn invalidate(f: &mut Function, from: u16, i: InvalidateRequest) -> Result<Effect, Refusal>
    ensures { observed f.new result [] ≡ commit f.old [] (invalidated f.old from i) }
{
    if is_other_agent(f.agent, from) {
        return Err(Refusal::OtherAgent);
    }
    if tags::itags::has(f.waiting, i.itag) {
        return Err(Refusal::ITagInUse);
    }
    invalidate_by(f, from, i);
    state::answered(Answer::Done)
}

// The public interface of the Function: every call, and one entry point for all of them.
#![tactic(auto)]

ghost use Rattle.std.specs.Prelude.{◌≡◌};
ghost use Rattle.state.specs.Answers.{observed};
ghost use Rattle.card.specs.Call.{step};

pub use call_access::{AccessArgs, Direction, Target, access, look_up};
pub use call_ask::{AskArgs, ask};
pub use call_page::page_request;
pub use call_receive::{payload_of, receive};
pub use call_send::{drain, ready};
pub use packet::{ITag, PageRequest, PrgIndex, Refusal, Tag, number};
pub use state::{
    Answer, Effect, Function, ResetArgs, disable, enable, new, pages_off, pages_on, reset,
};
pub use translations::Rcb;

// A call with its arguments. A received packet, or the payload of an access, is passed separately.
#[derive(Clone, Copy)]
pub enum Command {
    Reset(ResetArgs),
    Enable,
    Disable,
    Ask(AskArgs),
    Access(AccessArgs),
    Receive,
    Drain,
    PagesOn(u16),
    PagesOff,
    PageRequest(PageRequest),
}

// Makes any call on any state.
#[tactic(auto, using(state::proofs::Commits::quiet_result), unfolding(crate::specs::Call::calling))]
pub fn call(f: &mut Function, c: Command, bytes: &[u8], out: &mut [u8]) -> Result<Effect, Refusal>
    ensures { observed f.new result out.new ≡ step f.old c bytes.now out.old }
{
    match c {
        Command::Reset(a) => reset(f, a),
        Command::Enable => enable(f),
        Command::Disable => disable(f),
        Command::Ask(a) => ask(f, a, out),
        Command::Access(a) => access(f, a, bytes, out),
        Command::Receive => receive(f, bytes),
        Command::Drain => drain(f, out),
        Command::PagesOn(allocation) => pages_on(f, allocation),
        Command::PagesOff => pages_off(f),
        Command::PageRequest(q) => page_request(f, q, out),
    }
}

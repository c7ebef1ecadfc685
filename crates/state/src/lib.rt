// The Function: its state, what its calls answer, and the calls that neither send nor receive.
#![tactic(auto)]

ghost use Rattle.std.specs.Prelude.{◌≡◌, [], cond, None, Some};
ghost use Rattle.state.specs.State.{head_of, fresh, is_rcb, rcb_of};
ghost use Rattle.state.specs.Answers.{without_packet, observed, commit};
ghost use Rattle.state.specs.Switches.{resetting, enabling, disabling, switching_on, switching_off, is_allocation};

use atc::Cache;
use packet::{Attr, Head, Refusal, Tag};
use pages::{Interface, Pages};
use tags::TagState;
use translations::Rcb;

// The state of the Function. `waiting` has the ITags whose Invalidate Completion is still due.
#[derive(Clone, Copy)]
pub struct Function {
    pub id: u16,
    pub stu: u8,
    pub rcb: Rcb,
    pub enabled: bool,
    pub agent: Option<u16>,
    pub waiting: u32,
    pub cache: Cache,
    pub tags: [TagState; 32],
    pub pages: Pages,
}

// The answer of a call that is not refused.
#[derive(Clone, Copy)]
pub enum Answer {
    Done,
    Opened(Tag),
    Carried(u32),
    Discarded,
    More,
    Filled,
    Aborted,
    SwitchedOff,
    PayloadMore,
    PayloadLast,
    ReadFailed,
}

// What a call did: its answer, and the length of the packet that it sent, or 0, as the contracts of
// the calls (`without_packet`) have it.
#[derive(Clone, Copy)]
pub struct Effect {
    pub answer: Answer,
    pub sent: usize,
}

// The result of a call that sends nothing.
pub fn answered(answer: Answer) -> Result<Effect, Refusal>
    ensures { result ≡ without_packet answer }
{
    Ok(Effect { answer, sent: 0 })
}

fn fresh_function(id: u16, stu: u8, rcb: Rcb) -> Function
    ensures { result ≡ fresh id stu rcb }
{
    Function {
        id,
        stu,
        rcb,
        enabled: false,
        agent: None,
        waiting: 0,
        cache: Cache::new(),
        tags: tags::all_free(),
        pages: Pages::off(),
    }
}

// A new Function: as after a reset to ID 0, STU 0, RCB 64.
pub fn new() -> Function
    ensures { result ≡ fresh 0 0 (rcb_of 64) }
{
    fresh_function(0, 0, Rcb::B64)
}

// The boundary of a number of bytes, if it is one.
fn rcb_from(bytes: u8) -> Option<Rcb>
    ensures { result ≡ cond (is_rcb bytes) (Some (rcb_of bytes)) None }
{
    match bytes {
        64 => Some(Rcb::B64),
        128 => Some(Rcb::B128),
        _ => None,
    }
}

// The arguments of a reset.
#[derive(Clone, Copy)]
pub struct ResetArgs {
    pub id: u16,
    pub stu: u8,
    pub rcb: u8,
}

// Resets the Function to an ID, STU and RCB.
#[tactic(auto, using(crate::proofs::Commits::commits), unfolding(crate::specs::Switches::resetting))]
pub fn reset(f: &mut Function, a: ResetArgs) -> Result<Effect, Refusal>
    ensures { observed f.new result [] ≡ commit f.old [] (resetting a) }
{
    if 31 < a.stu {
        return Err(Refusal::BadArgument);
    }
    let Some(rcb) = rcb_from(a.rcb) else {
        return Err(Refusal::BadArgument);
    };
    *f = fresh_function(a.id, a.stu, rcb);
    answered(Answer::Done)
}

// Sets E. If it was clear, the cache is emptied and outstanding Translation Requests become stale.
#[tactic(auto, using(crate::proofs::Commits::commits), unfolding(crate::specs::Switches::enabling))]
pub fn enable(f: &mut Function) -> Result<Effect, Refusal>
    ensures { observed f.new result [] ≡ commit f.old [] (enabling f.old) }
{
    if !f.enabled {
        f.cache.empty();
        tags::all_stale(&mut f.tags);
        f.enabled = true;
    }
    answered(Answer::Done)
}

// Clears E.
#[tactic(auto, unfolding(crate::specs::Switches::disabling))]
pub fn disable(f: &mut Function) -> Result<Effect, Refusal>
    ensures { observed f.new result [] ≡ commit f.old [] (disabling f.old) }
{
    f.enabled = false;
    answered(Answer::Done)
}

// Is an allocation from 1 to 512?
fn is_allocation(allocation: u16) -> bool
    ensures { result ≡ is_allocation allocation }
{
    1 <= allocation && allocation <= 512
}

// Switches the page interface on, with an allocation of credits.
#[tactic(auto, using(crate::proofs::Commits::commits), unfolding(crate::specs::Switches::switching_on))]
pub fn pages_on(f: &mut Function, allocation: u16) -> Result<Effect, Refusal>
    ensures { observed f.new result [] ≡ commit f.old [] (switching_on f.old allocation f.old.pages.interface) }
{
    match f.pages.interface {
        Interface::Off if is_allocation(allocation) => {
            f.pages = Pages::on(allocation);
            answered(Answer::Done)
        }
        Interface::Off | Interface::On => Err(Refusal::BadArgument),
        Interface::Stopped => Err(Refusal::PagesNotOn),
    }
}

// Switches the page interface off.
#[tactic(auto, unfolding(crate::specs::Switches::switching_off))]
pub fn pages_off(f: &mut Function) -> Result<Effect, Refusal>
    ensures { observed f.new result [] ≡ commit f.old [] (switching_off f.old f.old.pages.interface) }
{
    if matches!(f.pages.interface, Interface::On) {
        f.pages = Pages::off();
    }
    answered(Answer::Done)
}

// The head of a packet to send: Traffic Class 0, zeros in Attr, and the Function's ID.
pub fn head(id: u16) -> Head
    ensures { result ≡ head_of id }
{
    Head {
        tc: 0,
        attr: Attr {
            ido: false,
            relaxed: false,
            nosnoop: false,
        },
        sender: id,
    }
}

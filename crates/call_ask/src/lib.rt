// Ask: a Translation Request for some units.
#![tactic(auto)]

ghost use Rattle.std.specs.Prelude.{◌≡◌, ◌≤◌};
ghost use Rattle.state.specs.Answers.{observed, commit};
ghost use Rattle.call_ask.specs.Ask.{translation_request_packet, is_unit_count, is_below_top, is_askable, ask_on, asking};
ghost use Rattle.tags.specs.Tags.{free_tag};

use packet::{Body, Packet, Refusal, Tag, TranslationRequest};
use state::{Answer, Effect, Function};
use translations::Rcb;

// The arguments: the number of units from the one that holds an address on, and the No Write flag.
#[derive(Clone, Copy)]
pub struct AskArgs {
    pub address: u64,
    pub units: u16,
    pub nowrite: bool,
}

// Is this number of units allowed?
fn is_unit_count(rcb: Rcb, units: u16) -> bool
    ensures { result ≡ is_unit_count rcb units }
{
    1 <= units && units <= translations::boundary_bytes(rcb) / 8
}

// Do the units from the one that holds an address on end at or below 2^64?
#[tactic(auto, using(lemmas::proofs::Tests::room_leb, ranges::proofs::Units::region_lt_top, ranges::proofs::Units::some_bytes), unfolding(crate::specs::Ask::is_below_top))]
fn is_below_top(stu: u8, address: u64, units: u16) -> bool
    requires { 1 ≤ units }
    ensures { result ≡ is_below_top stu address units }
{
    let first = ranges::region(address, ranges::unit_exponent(stu)).first;
    let bytes = units as u64 * ranges::unit_bytes(stu);
    bytes - 1 <= 0xFFFF_FFFF_FFFF_FFFF - first
}

#[tactic(auto, using(lemmas::proofs::Cases::cases), unfolding(crate::specs::Ask::is_askable))]
fn is_askable(rcb: Rcb, stu: u8, a: AskArgs) -> bool
    ensures { result ≡ is_askable rcb stu a }
{
    is_unit_count(rcb, a.units) && is_below_top(stu, a.address, a.units)
}

fn translation_request_packet(id: u16, tag: Tag, a: AskArgs) -> Packet
    requires { a.units ≤ 16 }
    ensures { result ≡ translation_request_packet id tag a }
{
    Packet {
        head: state::head(id),
        body: Body::Tr(TranslationRequest {
            tag,
            dwords: 2 * a.units,
            address: a.address / 4096 * 4096,
            nowrite: a.nowrite,
        }),
    }
}

// Sends a Translation Request on the lowest free tag.
#[tactic(auto, unfolding(state::specs::Answers::sends))]
fn ask_on(f: &mut Function, a: AskArgs, out: &mut [u8]) -> Result<Effect, Refusal>
    requires { (1 ≤ a.units) × (a.units ≤ 16) }
    ensures { observed f.new result out.new ≡ commit f.old out.old (ask_on f.old (free_tag f.old.tags) a out.old) }
{
    let Some(tag) = tags::lowest_free(&f.tags) else {
        return Err(Refusal::NoFreeTag);
    };
    let sent = tlp::write_packet(translation_request_packet(f.id, tag, a), &[], out)?;
    let pending = tags::new_translation(a.address, (a.units - 1) as u8, f.stu);
    tags::set_tag(&mut f.tags, tag, pending);
    Ok(Effect {
        answer: Answer::Opened(tag),
        sent,
    })
}

// Sends a Translation Request.
#[tactic(auto, using(state::proofs::Commits::commits, crate::proofs::AskLaws::few_units), unfolding(crate::specs::Ask::asking))]
pub fn ask(f: &mut Function, a: AskArgs, out: &mut [u8]) -> Result<Effect, Refusal>
    ensures { observed f.new result out.new ≡ commit f.old out.old (asking f.old a out.old) }
{
    if !f.enabled {
        return Err(Refusal::Disabled);
    }
    if !is_askable(f.rcb, f.stu, a) {
        return Err(Refusal::BadArgument);
    }
    ask_on(f, a, out)
}

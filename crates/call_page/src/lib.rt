// Page requests.
#![tactic(auto)]

ghost use Rattle.std.specs.Prelude.{◌≡◌};
ghost use Rattle.state.specs.Answers.{observed, commit};
ghost use Rattle.call_page.specs.PageRequests.{page_request_packet, is_valid_request, with_request, requesting};

use packet::{Body, Packet, PageRequest, Refusal};
use pages::{Interface, Pages};
use state::{Answer, Effect, Function};

fn is_valid_request(q: PageRequest) -> bool
    ensures { result ≡ is_valid_request q }
{
    (q.read || q.write) && q.page % 4096 == 0 && pages::is_index(q.index)
}

fn page_request_packet(id: u16, q: PageRequest) -> Packet
    ensures { result ≡ page_request_packet id q }
{
    Packet {
        head: state::head(id),
        body: Body::Prq(q),
    }
}

// Notes a request, which uses a credit.
fn add_request(p: &mut Pages, q: PageRequest)
    ensures { p.new ≡ with_request p.old q }
{
    p.add_request(q.index, q.last);
}

// Sends a Page Request.
#[tactic(auto, using(state::proofs::Commits::commits), unfolding(crate::specs::PageRequests::requesting_on, state::specs::Answers::sends))]
pub fn page_request(f: &mut Function, q: PageRequest, out: &mut [u8]) -> Result<Effect, Refusal>
    ensures { observed f.new result out.new ≡ commit f.old out.old (requesting f.old q out.old f.old.pages.interface) }
{
    if !matches!(f.pages.interface, Interface::On) {
        return Err(Refusal::PagesNotOn);
    }
    if !is_valid_request(q) {
        return Err(Refusal::BadArgument);
    }
    if f.pages.is_waiting(q.index) || f.pages.is_spent() {
        return Err(Refusal::NoCreditOrGroupWaits);
    }
    let sent = tlp::write_packet(page_request_packet(f.id, q), &[], out)?;
    add_request(&mut f.pages, q);
    Ok(Effect {
        answer: Answer::Done,
        sent,
    })
}

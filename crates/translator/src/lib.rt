// The public interface of the host: it takes a Translation Request and lent page tables, and sends
// the reply.
#![tactic(auto)]

ghost use Rattle.std.specs.Prelude.{◌≡◌, ◌≤◌};
ghost use Rattle.packet.specs.Frames.{eight_bytes};
ghost use Rattle.translator.specs.Translator.{final_rights, translation_with, translation_to, null_translation, reply_packet, replying, translation_reply, status_reply, reply_to, translating, observation};

use packet::{Attr, Body, Completion, Head, Outcome, Packet, Refusal, TranslationRequest};
use ranges::Translation;
pub use walk::{End, Mapping, Rights, Walk, walk_tables};

// The status of a reply: 000, with a translation; or 100.
#[derive(Clone, Copy)]
pub enum Reply {
    Successful = 0,
    CompleterAbort = 4,
}

// What was sent, its length in bytes, and the number of entries that the walk read.
#[derive(Clone, Copy)]
pub struct Report {
    pub reply: Reply,
    pub length: usize,
    pub visited: u32,
}

fn final_rights(nowrite: bool, g: Rights) -> Rights
    ensures { result ≡ final_rights nowrite g }
{
    Rights {
        w: g.w && !nowrite,
        ..g
    }
}

fn translation_with(base: u64, exponent: u32, g: Rights) -> Translation
    ensures { result ≡ translation_with base exponent g }
{
    Translation {
        base,
        size: Some(exponent),
        n: false,
        u: false,
        w: g.w,
        r: g.r,
    }
}

// A 4096-byte translation with neither right.
fn null_translation() -> Translation
    ensures { result ≡ null_translation }
{
    translation_with(0, 12, Rights { r: false, w: false })
}

fn translation_to(nowrite: bool, m: Mapping) -> Translation
    ensures { result ≡ translation_to nowrite m }
{
    let granted = m.rights;
    let rights = final_rights(nowrite, granted);
    if rights.is_none() {
        null_translation()
    } else {
        translation_with(m.base, m.exponent, rights)
    }
}

// High byte first. `writer` has the same of its own: to share one call of std is no plainer.
#[tactic(auto, using(crate::proofs::Laws::same_bytes))]
fn eight_bytes(x: u64) -> [u8; 8]
    ensures { result ≡ eight_bytes x }
{
    x.to_be_bytes()
}

// Writes a reply, if there is room. `visited` entries were read; a struct of it and `out` would be made
// and taken apart once.
fn send(
    reply: Reply,
    p: Packet,
    payload: &[u8],
    visited: u32,
    out: &mut [u8],
) -> Result<Report, Refusal>
    ensures { observation result out.new ≡ replying (record { reply = reply; packet = p; payload = payload.now }) visited out.old }
{
    let length = tlp::write_packet(p, payload, out)?;
    Ok(Report {
        reply,
        length,
        visited,
    })
}

// A Translation Request, and the host that replies to it.
#[derive(Clone, Copy)]
struct Request {
    host: u16,
    head: Head,
    body: TranslationRequest,
    ghost short: { body.dwords ≤ 32 },
}

impl Request {
    // A completion from the host, in the Traffic Class of the request, for its sender and tag.
    fn reply_packet(self, outcome: Outcome, count: u16, lower: u8) -> Packet
        ensures { result ≡ reply_packet self.host self.head self.body.tag outcome count lower }
    {
        let attr = Attr {
            ido: false,
            relaxed: false,
            nosnoop: false,
        };
        Packet {
            head: Head {
                tc: self.head.tc,
                attr,
                sender: self.host,
            },
            body: Body::Cpl(Completion {
                outcome,
                count,
                requester: self.head.sender,
                tag: self.body.tag,
                lower,
            }),
        }
    }

    fn send_translation(
        self,
        x: Translation,
        visited: u32,
        out: &mut [u8],
    ) -> Result<Report, Refusal>
        ensures { observation result out.new ≡ replying (translation_reply self.host self.head self.body.tag x) visited out.old }
    {
        let payload = eight_bytes(tlp::word_of(x));
        let p = self.reply_packet(Outcome::Data(2), 8, 120);
        send(Reply::Successful, p, &payload, visited, out)
    }

    fn send_status(self, visited: u32, out: &mut [u8]) -> Result<Report, Refusal>
        ensures { observation result out.new ≡ replying (status_reply self.host self.head self.body.tag self.body.dwords) visited out.old }
    {
        let reply = Reply::CompleterAbort;
        let p = self.reply_packet(Outcome::Status(reply as u8), 4 * self.body.dwords, 0);
        send(reply, p, &[], visited, out)
    }

    // Sends the reply that a walk gives.
    fn answer(self, w: Walk, out: &mut [u8]) -> Result<Report, Refusal>
        ensures { observation result out.new ≡ replying (reply_to self.host self.head self.body w.end) w.visited out.old }
    {
        match w.end {
            End::Mapped(m) => {
                self.send_translation(translation_to(self.body.nowrite, m), w.visited, out)
            }
            End::Unmapped => self.send_translation(null_translation(), w.visited, out),
            End::NotLent => self.send_status(w.visited, out),
        }
    }
}

// Replies to a Translation Request: `host` is the host's ID, `b` the bytes received, `entries` the
// lent tables. The reply is at the start of `out`. A refused call leaves `out` unchanged.
#[tactic(auto, using(crate::proofs::Laws::other_kind, crate::proofs::Laws::request_dwords, crate::proofs::Laws::answered), unfolding(crate::specs::Translator::translating))]
pub fn translate(host: u16, b: &[u8], entries: &[u64], out: &mut [u8]) -> Result<Report, Refusal>
    ensures { observation result out.new ≡ translating host b.now entries.now out.old }
{
    let p = tlp::read_packet(b)?;
    let Body::Tr(body) = p.body else {
        return Err(Refusal::UnsupportedKind);
    };
    let request = Request {
        host,
        head: p.head,
        body,
    };
    request.answer(walk_tables(entries, body.address), out)
}

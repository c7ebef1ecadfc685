// Writes the parts of an output line.
ghost use Rattle.std.specs.Prelude.{[], ◌∷◌, ◌++◌, ◌+◌, ◌≤◌, ◌<◌, length, Ok, Err};
ghost use Rattle.text.specs.Digits.{decimal};
ghost use Rattle.rows.specs.Rows.{kind_text, label_text, answer_text};
ghost use Rattle.rows.specs.Row.{Puts};

use packet::{Access, Body, Packet};

// A lent buffer, and the index after what was written to it.
#[derive(Drop)]
pub(crate) struct Row<'a> {
    pub(crate) out: &'a mut [u8],
    pub(crate) at: usize,
}

impl<'a> Row<'a> {
    // One byte.
    pub(crate) fn byte(&mut self, b: u8)
        requires { self.old.at < length self.old.out.now }
        ensures { Puts (b ∷ []) self.old self.new }
    {
        self.out[self.at] = b;
        self.at += 1;
    }

    fn text(&mut self, src: &[u8])
        requires { self.old.at + length src.now ≤ length self.old.out.now }
        ensures { Puts src.now self.old self.new }
    {
        let end = self.at + src.len();
        self.out[self.at..end].copy_from_slice(src);
        self.at = end;
    }

    // A number in decimal.
    #[tactic(auto, using(text::proofs::Numerals::numeral_digits, text::proofs::Numerals::decimal_short))]
    pub(crate) fn decimal(&mut self, n: u64)
        requires { self.old.at + 20 ≤ length self.old.out.now }
        ensures laid { Puts (decimal n) self.old self.new }
        ensures upper_bound { self.new.at ≤ self.old.at + 20 }
    {
        self.text(text::decimal(n).as_bytes());
    }

    // A text and the tab after it.
    fn field(&mut self, src: &[u8])
        requires { self.old.at + length src.now < length self.old.out.now }
        ensures laid { Puts (src.now ++ 9 ∷ []) self.old self.new }
        ensures next { self.new.at ≤ self.old.at + length src.now + 1 }
    {
        self.text(src);
        self.byte(b'\t');
    }

    // The word for a packet's kind.
    fn kind(&mut self, body: Body)
        requires { self.old.at + 4 ≤ length self.old.out.now }
        ensures laid { Puts (kind_text body ++ 9 ∷ []) self.old self.new }
        ensures upper_bound { self.new.at ≤ self.old.at + 4 }
    {
        match body {
            Body::Tr(_) => self.field(b"TR"),
            Body::Mem(_) => self.field(b"MEM"),
            Body::Cpl(_) => self.field(b"CPL"),
            Body::Inv(_) => self.field(b"INV"),
            Body::Ic(_) => self.field(b"IC"),
            Body::Prq(_) => self.field(b"PRQ"),
            Body::Prs(_) => self.field(b"PRS"),
        }
    }

    fn label(&mut self, body: Body)
        requires { self.old.at + 20 ≤ length self.old.out.now }
        ensures laid { Puts (label_text body) self.old self.new }
        ensures upper_bound { self.new.at ≤ self.old.at + 20 }
    {
        match body {
            Body::Tr(t) => self.decimal(u64::from(t.tag.0)),
            Body::Mem(m) => match m.access {
                Access::Read(tag) => self.decimal(u64::from(tag.0)),
                Access::Write => self.byte(b'-'),
            },
            Body::Cpl(c) => self.decimal(u64::from(c.tag.0)),
            Body::Inv(i) => self.decimal(u64::from(i.itag.0)),
            Body::Ic(i) => self.text(&text::hex8(i.vector)),
            Body::Prq(q) => self.decimal(u64::from(q.index.0)),
            Body::Prs(s) => self.decimal(u64::from(s.index.0)),
        }
    }

    // Kind, sender and label of a packet.
    pub(crate) fn packet(&mut self, p: Packet)
        requires { self.old.at + 29 ≤ length self.old.out.now }
        ensures laid { Puts (answer_text (Ok p)) self.old self.new }
        ensures upper_bound { self.new.at ≤ self.old.at + 29 }
    {
        self.kind(p.body);
        self.field(&text::hex4(p.head.sender));
        self.label(p.body);
    }

    // BAD, the number of a refusal and a dash.
    pub(crate) fn bad(&mut self, n: u8)
        requires { self.old.at + 29 ≤ length self.old.out.now }
        ensures laid { Puts (answer_text (Err n)) self.old self.new }
        ensures upper_bound { self.new.at ≤ self.old.at + 29 }
    {
        self.text(b"BAD\t");
        self.decimal(u64::from(n));
        self.text(b"\t-");
    }
}

use crate::{Input, Output, Stored};
use packet::{Access, Body, Completion, MemoryRequest, Outcome, Packet};

// The kinds of a record, in the order of their codes.
#[derive(Clone, Copy)]
enum Kind {
    Translation,
    Read,
    Write,
    Status,
    Data,
    Invalidate,
    InvalidateCompletion,
    Page,
    PrgResponse,
}

const KINDS: [Kind; 9] = [
    Kind::Translation,
    Kind::Read,
    Kind::Write,
    Kind::Status,
    Kind::Data,
    Kind::Invalidate,
    Kind::InvalidateCompletion,
    Kind::Page,
    Kind::PrgResponse,
];

impl Kind {
    fn of(body: Body) -> Self {
        match body {
            Body::Tr(_) => Kind::Translation,
            Body::Mem(
                MemoryRequest {
                    access: Access::Read(_),
                    ..
                },
            ) => Kind::Read,
            Body::Mem(
                MemoryRequest {
                    access: Access::Write,
                    ..
                },
            ) => Kind::Write,
            Body::Cpl(
                Completion {
                    outcome: Outcome::Status(_),
                    ..
                },
            ) => Kind::Status,
            Body::Cpl(
                Completion {
                    outcome: Outcome::Data(_),
                    ..
                },
            ) => Kind::Data,
            Body::Inv(_) => Kind::Invalidate,
            Body::Ic(_) => Kind::InvalidateCompletion,
            Body::Prq(_) => Kind::Page,
            Body::Prs(_) => Kind::PrgResponse,
        }
    }
}

impl Stored for Kind {
    fn put(self, out: &mut Output) {
        out.put(self as u8);
    }

    // A code past the last one is taken for it.
    fn take(from: &mut Input) -> Self {
        KINDS
            .get(usize::from(from.byte()))
            .copied()
            .unwrap_or(Kind::PrgResponse)
    }
}

fn put_body(body: Body, out: &mut Output) {
    match body {
        Body::Tr(t) => out.put(t),
        Body::Mem(m) => {
            if let Access::Read(tag) = m.access {
                out.put(tag);
            }
            out.put(m.dwords);
            out.put(m.address);
            out.put(m.translated);
        }
        Body::Cpl(c) => {
            match c.outcome {
                Outcome::Data(dwords) => out.put(dwords),
                Outcome::Status(status) => out.put(status),
            }
            out.put(c.count);
            out.put(c.requester);
            out.put(c.tag);
            out.put(c.lower);
        }
        Body::Inv(i) => out.put(i),
        Body::Ic(i) => out.put(i),
        Body::Prq(q) => out.put(q),
        Body::Prs(s) => out.put(s),
    }
}

fn take_mem(access: Access, from: &mut Input) -> Body {
    Body::Mem(MemoryRequest {
        access,
        dwords: from.take(),
        address: from.take(),
        translated: from.take(),
    })
}

fn take_cpl(outcome: Outcome, from: &mut Input) -> Body {
    Body::Cpl(Completion {
        outcome,
        count: from.take(),
        requester: from.take(),
        tag: from.take(),
        lower: from.take(),
    })
}

fn take_body(kind: Kind, from: &mut Input) -> Body {
    match kind {
        Kind::Translation => Body::Tr(from.take()),
        Kind::Read => take_mem(Access::Read(from.take()), from),
        Kind::Write => take_mem(Access::Write, from),
        Kind::Status => take_cpl(Outcome::Status(from.take()), from),
        Kind::Data => take_cpl(Outcome::Data(from.take()), from),
        Kind::Invalidate => Body::Inv(from.take()),
        Kind::InvalidateCompletion => Body::Ic(from.take()),
        Kind::Page => Body::Prq(from.take()),
        Kind::PrgResponse => Body::Prs(from.take()),
    }
}

// A packet, the length that its record gives, and its payload.
#[derive(Clone, Copy)]
pub struct Record<'a> {
    pub packet: Packet,
    pub length: u16,
    pub payload: &'a [u8],
}

impl<'a> Record<'a> {
    pub fn put(&self, out: &mut Output) {
        out.put(Kind::of(self.packet.body));
        out.put(self.packet.head);
        out.put(self.length);
        put_body(self.packet.body, out);
        out.hex(self.payload);
    }

    pub fn take(bytes: &'a [u8]) -> Self {
        let mut from = Input::new(bytes);
        let kind = from.take();
        let head = from.take();
        let length = from.take();
        let body = take_body(kind, &mut from);
        Record {
            packet: Packet { head, body },
            length,
            payload: from.rest(),
        }
    }
}

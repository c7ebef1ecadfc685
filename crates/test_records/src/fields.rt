// The fields of packets, in the order of a record. Each impl is written out, since no macro or derive
// of the repository may write one.
use crate::{Input, Output, Stored};
use packet::{
    Attr, Head, ITag, InvalidateCompletion, InvalidateRequest, PageRequest, PrgIndex, PrgResponse,
    Tag, TranslationRequest,
};

impl Stored for Tag {
    fn put(self, out: &mut Output) {
        out.put(self.0);
    }

    fn take(from: &mut Input) -> Self {
        Tag(from.take())
    }
}

impl Stored for ITag {
    fn put(self, out: &mut Output) {
        out.put(self.0);
    }

    fn take(from: &mut Input) -> Self {
        ITag(from.take())
    }
}

impl Stored for PrgIndex {
    fn put(self, out: &mut Output) {
        out.put(self.0);
    }

    fn take(from: &mut Input) -> Self {
        PrgIndex(from.take())
    }
}

// 4 for ID-based ordering, 2 for Relaxed Ordering, 1 for No Snoop.
impl Stored for Attr {
    fn put(self, out: &mut Output) {
        out.put(u8::from(self.ido) * 4 + u8::from(self.relaxed) * 2 + u8::from(self.nosnoop));
    }

    fn take(from: &mut Input) -> Self {
        let code = from.byte();
        Attr {
            ido: code & 4 != 0,
            relaxed: code & 2 != 0,
            nosnoop: code & 1 != 0,
        }
    }
}

impl Stored for Head {
    #[tactic(auto, using(crate::proofs::Writing::some_more))]
    fn put(self, out: &mut Output) {
        out.put(self.tc);
        out.put(self.attr);
        out.put(self.sender);
    }

    fn take(from: &mut Input) -> Self {
        Head {
            tc: from.take(),
            attr: from.take(),
            sender: from.take(),
        }
    }
}

impl Stored for TranslationRequest {
    #[tactic(auto, using(crate::proofs::Writing::some_more))]
    fn put(self, out: &mut Output) {
        out.put(self.tag);
        out.put(self.dwords);
        out.put(self.address);
        out.put(self.nowrite);
    }

    fn take(from: &mut Input) -> Self {
        TranslationRequest {
            tag: from.take(),
            dwords: from.take(),
            address: from.take(),
            nowrite: from.take(),
        }
    }
}

impl Stored for InvalidateRequest {
    #[tactic(auto, using(crate::proofs::Writing::some_more))]
    fn put(self, out: &mut Output) {
        out.put(self.itag);
        out.put(self.device);
        out.put(self.address);
        out.put(self.sized);
    }

    fn take(from: &mut Input) -> Self {
        InvalidateRequest {
            itag: from.take(),
            device: from.take(),
            address: from.take(),
            sized: from.take(),
        }
    }
}

impl Stored for InvalidateCompletion {
    #[tactic(auto, using(crate::proofs::Writing::some_more))]
    fn put(self, out: &mut Output) {
        out.put(self.device);
        out.put(self.cc);
        out.put(self.vector);
    }

    fn take(from: &mut Input) -> Self {
        InvalidateCompletion {
            device: from.take(),
            cc: from.take(),
            vector: from.take(),
        }
    }
}

impl Stored for PageRequest {
    #[tactic(auto, using(crate::proofs::Writing::some_more))]
    fn put(self, out: &mut Output) {
        out.put(self.page);
        out.put(self.index);
        out.put(self.last);
        out.put(self.write);
        out.put(self.read);
    }

    fn take(from: &mut Input) -> Self {
        PageRequest {
            page: from.take(),
            index: from.take(),
            last: from.take(),
            write: from.take(),
            read: from.take(),
        }
    }
}

impl Stored for PrgResponse {
    #[tactic(auto, using(crate::proofs::Writing::some_more))]
    fn put(self, out: &mut Output) {
        out.put(self.device);
        out.put(self.code);
        out.put(self.index);
    }

    fn take(from: &mut Input) -> Self {
        PrgResponse {
            device: from.take(),
            code: from.take(),
            index: from.take(),
        }
    }
}

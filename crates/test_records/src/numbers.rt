// Numbers, high byte first, and a flag as 00 or 01. The impls are alike, since no macro of the
// repository may write them.
use crate::{Input, Output, Stored};

impl Stored for u8 {
    #[tactic(auto, using(crate::proofs::Writing::some_from))]
    fn put(self, out: &mut Output) {
        out.hex(&[self]);
    }

    fn take(from: &mut Input) -> Self {
        from.byte()
    }
}

impl Stored for u16 {
    #[tactic(auto, using(crate::proofs::Writing::some_from))]
    fn put(self, out: &mut Output) {
        out.hex(&self.to_be_bytes());
    }

    fn take(from: &mut Input) -> Self {
        u16::from_be_bytes(from.bytes())
    }
}

impl Stored for u32 {
    #[tactic(auto, using(crate::proofs::Writing::some_from))]
    fn put(self, out: &mut Output) {
        out.hex(&self.to_be_bytes());
    }

    fn take(from: &mut Input) -> Self {
        u32::from_be_bytes(from.bytes())
    }
}

impl Stored for u64 {
    #[tactic(auto, using(crate::proofs::Writing::some_from))]
    fn put(self, out: &mut Output) {
        out.hex(&self.to_be_bytes());
    }

    fn take(from: &mut Input) -> Self {
        u64::from_be_bytes(from.bytes())
    }
}

impl Stored for bool {
    fn put(self, out: &mut Output) {
        out.put(u8::from(self));
    }

    fn take(from: &mut Input) -> Self {
        from.byte() == 1
    }
}

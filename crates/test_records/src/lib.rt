// Records of packets: bytes with the kind, TC, Attr, sender, a length, and the fields of the kind.
// The test programs for stored vectors use them.
#![tactic(auto)]

mod fields;
mod input;
mod numbers;
mod output;
mod record;

ghost use Rattle.test_records.specs.Written.{AddsSome};

pub use input::Input;
pub use output::Output;
pub use record::Record;

// A value of a record. What `put` writes in hex, `take` reads, in the same order.
pub trait Stored: Sized {
    fn put(self, out: &mut Output)
        ensures { AddsSome out.old out.new };

    fn take(from: &mut Input) -> Self;
}

// Checksums over what calls answer and send. The numbers are those of benchmarks/card/model.h.
use packet::Refusal;
use state::{Answer, Effect};

// Adds one number to a sum.
pub(crate) fn mix(sum: u64, x: u32) -> u64 {
    sum % 4294967296 * 16777619 + u64::from(x)
}

// Adds bytes to a sum.
pub(crate) fn of_bytes(sum: u64, bytes: &[u8]) -> u64 {
    bytes.iter().fold(sum, |sum, b| mix(sum, u32::from(*b)))
}

fn code(a: Answer) -> u32 {
    match a {
        Answer::Done => 0x10000,
        Answer::Opened(t) => 0x20000 + u32::from(t.0),
        Answer::Carried(n) => 0x30000 + n % 65536,
        Answer::Discarded => 0x40000,
        Answer::More => 0x50000,
        Answer::Filled => 0x60000,
        Answer::Aborted => 0x70000,
        Answer::SwitchedOff => 0x80000,
        Answer::PayloadMore => 0x90000,
        Answer::PayloadLast => 0xA0000,
        Answer::ReadFailed => 0xB0000,
    }
}

// Adds an answer, and the length of the packet sent, to a sum; or a refusal, and 0.
pub(crate) fn of_result(sum: u64, answered: Result<Effect, Refusal>) -> u64 {
    match answered {
        Ok(effect) => mix(
            mix(sum, code(effect.answer)),
            (effect.sent % 4294967296) as u32,
        ),
        Err(refusal) => mix(mix(sum, refusal as u32), 0),
    }
}

// Replays a script of calls on the card, for benchmarks/card. A call is three numbers and a part of
// a pool of bytes; benchmarks/card/script.h decodes them in the same way.
#![tactic(auto)]

mod step;
mod sums;

use packet::Refusal;
use state::{Effect, Function};
use step::Step;

// Makes every call by `call`, from a new Function on. The sum is over the answers and the lengths
// of the packets sent, and at the end over the buffer and the state; if `checked`, also over the
// payload that each call returns and the buffer after it. Each export has a loop of its own, since
// `call` is a type parameter: one loop that chooses in each turn takes 1.3 to 1.5 times as long.
fn replay<F>(script: &[u64], pool: &[u8], out: &mut [u8], checked: bool, call: F) -> u64
where
    F: Fn(&mut Function, Step, &[u8], &mut [u8]) -> Result<Effect, Refusal>,
    requires { F.IsAlwaysCallable call }
{
    let mut f = card::new();
    let mut sum = 0;
    for numbers in script.as_chunks().0 {
        let step = Step::new(*numbers);
        let bytes = step.bytes(pool);
        let room = step.room.min(out.len());
        let result = call(&mut f, step, bytes, &mut out[..room]);
        if checked {
            sum = sums::of_bytes(sum, card::payload_of(result, bytes));
            sum = sums::of_bytes(sum, out);
        }
        sum = sums::of_result(sum, result);
    }
    sums::mix(sums::of_bytes(sum, out), test_snapshot::state_digest(&f))
}

// Every call through `card::call`.
#[unsafe(no_mangle)]
pub extern "C" fn card_by_call(script: &[u64], pool: &[u8], out: &mut [u8], checked: bool) -> u64 {
    replay(script, pool, out, checked, step::by_call)
}

// The same, each call by its own function.
#[unsafe(no_mangle)]
pub extern "C" fn card_by_single_calls(
    script: &[u64],
    pool: &[u8],
    out: &mut [u8],
    checked: bool,
) -> u64 {
    replay(script, pool, out, checked, step::by_single_call)
}

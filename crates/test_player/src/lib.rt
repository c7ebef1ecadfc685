// Plays scripts of calls on a Function: one line of output for each record of input.
#![tactic(auto)]

mod calls;

ghost use Rattle.std.specs.Prelude.{◌≡◌};
ghost use Rattle.state.specs.State.{fresh, rcb_of};

use calls::Call;
use state::{Answer, Function};
use test_lines::Responder;
use test_records::{Input, Output};

fn put_answer(a: Answer, out: &mut Output) {
    match a {
        Answer::Done => out.byte(b'D'),
        Answer::Opened(tag) => put_number(b'T', u64::from(tag.0), out),
        Answer::Carried(n) => put_number(b'C', u64::from(n), out),
        Answer::Discarded => out.byte(b'X'),
        Answer::More => out.byte(b'M'),
        Answer::Filled => out.byte(b'F'),
        Answer::Aborted => out.byte(b'A'),
        Answer::SwitchedOff => out.byte(b'O'),
        Answer::PayloadMore => out.byte(b'P'),
        Answer::PayloadLast => out.byte(b'L'),
        Answer::ReadFailed => out.byte(b'E'),
    }
}

fn put_number(first: u8, n: u64, out: &mut Output) {
    out.byte(first);
    out.number(n);
}

fn put_bytes(bytes: &[u8], out: &mut Output) {
    out.byte(b'\t');
    out.hex(bytes);
}

// What a byte of the lent buffer is before a call.
const UNTOUCHED: u8 = 0xA5;

// The buffer up to the last byte that differs from its initial value.
fn touched(lent: &[u8]) -> &[u8] {
    match lent.iter().rposition(|b| *b != UNTOUCHED) {
        Some(last) => &lent[..last + 1],
        None => &[],
    }
}

// The Function, as a script leaves it.
#[derive(Clone, Copy)]
pub struct Card {
    state: Function,
}

impl Card {
    // A new Function.
    pub fn new() -> Self
        ensures { result.state ≡ fresh 0 0 (rcb_of 64) }
    {
        Card { state: card::new() }
    }

    // Writes the answer or the refusal, the length of the packet sent, the buffer, the returned
    // payload, and the digest of the state.
    fn call(&mut self, call: Call, out: &mut Output) {
        let mut lent = [UNTOUCHED; 256];
        let room = usize::from(call.room).min(256);
        let result = card::call(&mut self.state, call.command, call.bytes, &mut lent[..room]);
        match result {
            Ok(effect) => put_answer(effect.answer, out),
            Err(r) => put_number(b'R', u64::from(r as u8), out),
        }
        put_number(b'\t', result.map_or(0, |effect| effect.sent as u64), out);
        put_bytes(touched(&lent), out);
        put_bytes(card::payload_of(result, call.bytes), out);
        out.byte(b'\t');
        out.put(test_snapshot::state_digest(&self.state));
    }
}

impl Responder for Card {
    // Code 15 of a stored script asks for the whole state, any other makes a call.
    fn respond(&mut self, line: &[u8], out: &mut Output) {
        let mut space = [0; 256];
        let Some(record) = test_lines::unhex(line, &mut space) else {
            return out.unreadable();
        };
        let mut from = Input::new(record);
        match from.byte() {
            15 => test_snapshot::put_state(&self.state, out),
            code => self.call(calls::take_call(code, from), out),
        }
    }
}

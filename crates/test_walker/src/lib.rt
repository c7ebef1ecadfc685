// Plays scripts of tables and packets on the host's translator: one line of output for each record
// of input.
#![tactic(auto)]

ghost use Rattle.std.specs.Prelude.{◌≡◌, length, replicate};

use test_lines::Responder;
use test_records::{Input, Output};
use translator::Reply;

// Room for the longest table, all zeros.
pub fn longest_table() -> [u64; 4096]
    ensures room { 4096 ≡ length result }
    ensures zeros { result ≡ replicate 4096 0 }
{
    [0; 4096]
}

fn letter(reply: Reply) -> u8 {
    match reply {
        Reply::Successful => b'T',
        Reply::CompleterAbort => b'S',
    }
}

// The host, with a table that stands at the start of its room. A later table can be longer, so that the
// room is kept and not the slice.
#[derive(Drop)]
pub struct Host<'a> {
    room: &'a mut [u64],
    entries: usize,
}

// A method that returns None has done nothing: the record asks for what is not there.
impl<'a> Host<'a> {
    // A host with a table of no entry.
    pub fn new(room: &'a mut [u64]) -> Self
        ensures same_room { result.room.ghost_name ≡ room.entry.ghost_name }
        ensures untouched { result.room.now ≡ room.old }
        ensures empty { result.entries ≡ 0 }
    {
        Host { room, entries: 0 }
    }

    // A new table of zeros.
    fn renew(&mut self, entries: u16, out: &mut Output) -> Option<()> {
        let entries = usize::from(entries);
        if self.room.len() < entries {
            return None;
        }
        self.room.fill(0);
        self.entries = entries;
        out.byte(b'-');
        Some(())
    }

    fn set(&mut self, index: u16, value: u64, out: &mut Output) -> Option<()> {
        let table = self.room.get_mut(..self.entries)?;
        *table.get_mut(usize::from(index))? = value;
        out.byte(b'-');
        Some(())
    }

    // Translates a packet into a buffer of the given length, at most 64. Writes what was sent, how
    // many entries were read, the packet, and the rest of its buffer; or the refusal.
    fn translate(&self, id: u16, length: u16, packet: &[u8], out: &mut Output) -> Option<()> {
        let mut space = [0; 64];
        let lent = space.get_mut(..usize::from(length))?;
        let table = self.room.get(..self.entries)?;
        test_lines::mark(lent);
        let result = translator::translate(id, packet, table, lent);
        if let Ok(report) = result {
            out.byte(letter(report.reply));
            out.byte(b'\t');
            out.number(u64::from(report.visited));
            out.byte(b'\t');
        }
        test_lines::put_written(result.map(|report| report.length), lent, out);
        Some(())
    }

    // Plays a record. The codes are those of stored scripts.
    fn play(&mut self, line: &[u8], out: &mut Output) -> Option<()> {
        let mut space = [0; 256];
        let mut from = Input::new(test_lines::unhex(line, &mut space)?);
        match from.byte() {
            1 => self.renew(from.take(), out),
            2 => self.set(from.take(), from.take(), out),
            3 => self.translate(from.take(), from.take(), from.rest(), out),
            _ => None,
        }
    }
}

impl Responder for Host<'_> {
    fn respond(&mut self, line: &[u8], out: &mut Output) {
        if self.play(line, out).is_none() {
            out.unreadable();
        }
    }
}

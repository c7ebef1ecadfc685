// Finds the lines in a piece of the input.
ghost use Rattle.std.specs.Prelude.{◌≡◌, true, [], ◌++◌, ◌+◌, ◌-◌, ◌*◌, ◌^◌, ◌≤◌, ◌<◌, length, take, drop, position, ◌==◌, MatchOption};
ghost use Rattle.lister.specs.Line.{line_read, line_result};
ghost use Rattle.rows.specs.Places.{Laid};
ghost use Rattle.lister.specs.Stream.{printed, number_after, start_after, first289};
ghost use Rattle.lister.specs.Pieces.{takes, no_feed, LineEnd};

use crate::{LineError, Progress, hex, put_row, read_line, read_run};
use packet::Packet;

// How many characters are taken: there must be 64 bytes of room for each, and a
// 64-bit number for each line.
pub(crate) fn takes(number: u64, block: usize, room: usize) -> usize
    ensures { (result ≡ takes number block room) × (result ≤ block) × (result * 64 ≤ room) × (number + result < 2 ^ 64) }
{
    let n = block.min(room / 64) as u64;
    n.min(u64::MAX - number) as usize
}

fn line_feed(cs: &[u8]) -> Option<usize>
    ensures { result ≡ position (λ c. c == 10) cs.now }
{
    cs.iter().position(|c| *c == b'\n')
}

// The index of the first line feed, if there is one. None is before `from`.
fn line_end(cs: &[u8], from: usize) -> Option<usize>
    requires { (from ≤ length cs.now) × (no_feed (take from cs.now) ≡ true) }
    ensures { MatchOption result (no_feed cs.now ≡ true) (λ n. (n < length cs.now) × LineEnd cs.now n) }
{
    let n = line_feed(&cs[from..])?;
    Some(from + n)
}

// Appends characters to the first `at` kept ones of a line, up to the 289th.
fn keep(hold: &mut [u8], at: usize, cs: &[u8]) -> usize
    requires { (at ≤ 289) × (289 ≤ length hold.old) }
    ensures laid { Laid at (take (289 - at) cs.now) hold.old result hold.new }
    ensures upper_bound { result ≤ 289 }
{
    let n = cs.len().min(289 - at);
    let end = at + n;
    hold[at..end].copy_from_slice(&cs[..n]);
    end
}

// Reads the line whose kept start is `start` and whose rest is `cs`.
fn read_held(start: &[u8], cs: &[u8]) -> Result<Packet, LineError>
    requires { length start.now ≤ 289 }
    ensures { line_result result ≡ line_read (start.now ++ cs.now) }
{
    let mut line = [0u8; 289];
    let a = keep(&mut line, 0, start);
    let n = keep(&mut line, a, cs);
    read_line(&line[..n])
}

// Prints lines to a lent buffer: the number of the next, and the index after what was printed.
#[derive(Drop)]
struct Printer<'a> {
    number: u64,
    out: &'a mut [u8],
    at: usize,
}

impl<'a> Printer<'a> {
    // Prints the lines that end in `cs`, and returns how many characters they have with their line
    // feeds.
    fn whole_lines(&mut self, cs: &[u8]) -> usize
        requires { (self.old.at + length cs.now * 64 ≤ length self.old.out.now) × (self.old.number + length cs.now < 2 ^ 64) }
        ensures same_buffer { self.new.out.ghost_name ≡ self.old.out.ghost_name }
        ensures taken_in_bounds { (result ≤ length cs.now) × (drop result cs.now ≡ start_after [] cs.now) × (self.new.number ≡ number_after self.old.number cs.now) }
        ensures laid { Laid self.old.at (printed self.old.number [] cs.now) self.old.out.now self.new.at self.new.out.now }
    {
        let values = text::hex_values();
        let mut bytes = [0u8; 144];
        let mut taken = 0;
        // A turn takes a line of any length, which no iterator counts more plainly.
        while taken < cs.len() {
            let rest = &cs[taken..];
            let spelled = hex::run(rest, &mut bytes, &values);
            let Some(end) = line_end(rest, spelled * 2) else {
                break;
            };
            let line = read_run(&rest[..end], spelled, &bytes);
            self.at += put_row(self.number, line, &mut self.out[self.at..]);
            self.number += 1;
            taken += end + 1;
        }
        taken
    }
}

// Takes in a piece: lists the lines that end in it, and keeps the start of the next. Returns the next
// state and the length of the output.
pub(crate) fn take_in(
    from: Progress,
    hold: &mut [u8],
    cs: &[u8],
    out: &mut [u8],
) -> (Progress, usize)
    requires { (from.held ≤ 289) × (289 ≤ length hold.old) × (length cs.now * 64 ≤ length out.old) × (from.number + length cs.now < 2 ^ 64) }
    ensures number_value { result.0.number ≡ number_after from.number cs.now }
    ensures laid { Laid 0 (first289 (start_after (take from.held hold.old) cs.now)) hold.old result.0.held hold.new }
    ensures laid_2 { Laid 0 (printed from.number (take from.held hold.old) cs.now) out.old result.1 out.new }
{
    let Some(end) = line_end(cs, 0) else {
        let held = keep(hold, from.held, cs);
        return (Progress { held, ..from }, 0);
    };
    let held = read_held(&hold[..from.held], &cs[..end]);
    let at = put_row(from.number, held, out);
    let mut printer = Printer {
        number: from.number + 1,
        out,
        at,
    };
    let next = end + 1;
    let rest = &cs[next..];
    let start = printer.whole_lines(rest);
    let held = keep(hold, 0, &rest[start..]);
    let number = printer.number;
    (Progress { number, held }, printer.at)
}

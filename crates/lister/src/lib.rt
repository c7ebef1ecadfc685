// The listing of lines of packets in hex.
#![tactic(auto)]

mod hex;
mod lines;

ghost use Rattle.std.specs.Prelude.{◌≡◌};
ghost use Rattle.rows.specs.Rows.{out_line, row_in};
ghost use Rattle.lister.specs.Line.{error_number, line_result, line_read, line_text};
ghost use Rattle.lister.specs.Runs.{HexRun};
ghost use Rattle.lister.specs.declared.LineError.TheVariants.{Refused};
ghost use Rattle.lister.specs.Pieces.{initial_progress, fed, finished};

use packet::{Packet, Refusal};

// Why a line holds no packet: it is refused, too long a line as a too long packet is; or it is not
// bytes in hex.
#[derive(Clone, Copy)]
pub enum LineError {
    Refused(Refusal),
    Unreadable,
}

impl From<Refusal> for LineError {
    ghost from_gives = { λ r e. e ≡ Refused r };

    fn from(r: Refusal) -> LineError {
        LineError::Refused(r)
    }
}

// The number in the line's output.
fn number_of(e: LineError) -> u8
    ensures { result ≡ error_number e }
{
    match e {
        LineError::Refused(r) => r as u8,
        LineError::Unreadable => 0,
    }
}

// The content of a line whose first n bytes were decoded.
#[tactic(auto, using(crate::proofs::Spelled::read_bytes, crate::proofs::Spelled::read_none), unfolding(crate::specs::Line::line_read))]
pub(crate) fn read_run(line: &[u8], n: usize, bytes: &[u8]) -> Result<Packet, LineError>
    requires { HexRun line.now n bytes.now }
    ensures { line_result result ≡ line_read line.now }
{
    if 288 < line.len() {
        return Err(LineError::Refused(Refusal::BadLength));
    }
    if line.len() % 2 != 0 {
        return Err(LineError::Unreadable);
    }
    if n * 2 != line.len() {
        return Err(LineError::Unreadable);
    }
    Ok(reader::read_packet(&bytes[..n])?)
}

// Reads one line.
pub fn read_line(line: &[u8]) -> Result<Packet, LineError>
    ensures { line_result result ≡ line_read line.now }
{
    let values = text::hex_values();
    let mut bytes = [0u8; 144];
    let n = hex::run(line, &mut bytes, &values);
    read_run(line, n, &bytes)
}

fn put_row(number: u64, line: Result<Packet, LineError>, out: &mut [u8]) -> usize
    ensures { (result, out.new) ≡ row_in (out_line number (line_result line)) out.old }
{
    rows::put_row(number, line.map_err(number_of), out)
}

// Writes the output line of line `number` to the start of `out` and returns its length. An `out` of
// fewer than 64 bytes, more than any line needs, is left unchanged.
#[tactic(auto, unfolding(crate::specs::Line::line_text))]
pub fn list_line(number: u64, line: &[u8], out: &mut [u8]) -> usize
    ensures { (result, out.new) ≡ row_in (line_text number line.now) out.old }
{
    put_row(number, read_line(line), out)
}

// The state between two blocks: the number of the unfinished line, and how many of its
// characters are kept in `hold`, which the caller lends to `feed` and `finish`.
#[derive(Clone, Copy)]
pub struct Progress {
    pub number: u64,
    pub held: usize,
}

// The state before the first block.
pub fn start() -> Progress
    ensures { result ≡ initial_progress }
{
    Progress { number: 1, held: 0 }
}

// The result of feeding a block: the next state, how many characters of the block were taken, and
// how many bytes of output are ready at the start of `out`, to be written before the next call.
#[derive(Clone, Copy)]
pub struct Fed {
    pub progress: Progress,
    pub taken: usize,
    pub ready: usize,
}

// Takes the next block of the input, as much as `out` has room for at 64 bytes a character. The
// first `held` characters of `hold` are the start of line `number`. Of too long a line only the
// first 289 are kept. With a shorter `hold` nothing is taken.
pub fn feed(from: Progress, hold: &mut [u8], block: &[u8], out: &mut [u8]) -> Fed
    ensures { (result, hold.new, out.new) ≡ fed from hold.old block.now out.old }
{
    let held = from.held.min(289).min(hold.len());
    let start = Progress { held, ..from };
    if hold.len() < 289 {
        return Fed {
            progress: start,
            taken: 0,
            ready: 0,
        };
    }
    let taken = lines::takes(from.number, block.len(), out.len());
    let (progress, ready) = lines::take_in(start, hold, &block[..taken], out);
    Fed {
        progress,
        taken,
        ready,
    }
}

// Writes the output line of the last line, if the input does not end in a line
// feed, as `list_line` does.
#[tactic(auto, using(crate::proofs::Holds::finish_empty, crate::proofs::Holds::finish_held))]
pub fn finish(from: Progress, hold: &[u8], out: &mut [u8]) -> usize
    ensures { (result, out.new) ≡ finished from hold.now out.old }
{
    let held = from.held.min(289).min(hold.len());
    if held == 0 {
        return 0;
    }
    list_line(from.number, &hold[..held], out)
}

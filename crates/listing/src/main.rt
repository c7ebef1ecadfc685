// Lists the packets on standard input, one per line in hex, on standard output. Each block that is
// read goes to `lister`, and what `lister` has ready is written. Its law `any_blocks` says that the
// output is the listing of the whole input; the contract of `list_all` says so of a reader and a
// writer whose bytes are known. Output is written after each read, so that a user who types lines
// sees their listing at once.
#![tactic(auto)]

ghost use Rattle.std.specs.Prelude.{◌*◌, ◌<◌, ◌≤◌, ◌≡◌, length, OnOk};
ghost use Rattle.std.specs.Io.KnownBytes.{Appends};
ghost use Rattle.lister.specs.Stream.{last_text};
ghost use Rattle.lister.specs.Pieces.{start_in};
ghost use Rattle.listing.specs.Listed.{Listed};

use lister::Progress;
use std::io;
use std::io::{Read, Write};

fn block_buffer() -> [u8; 16384]
    ensures { 16384 ≡ length result }
{
    [0; 16384]
}

// 64 bytes for each character of a block.
fn output_buffer() -> [u8; 1048576]
    ensures { 1048576 ≡ length result }
{
    [0; 1048576]
}

// Lists the last line, if the input does not end in a line feed.
fn write_last<W: Write>(
    progress: Progress,
    hold: &[u8],
    out: &mut [u8],
    output: &mut W,
) -> io::Result<()>
    requires { 64 ≤ length out.old }
    ensures { OnOk result (Appends (W.contents output.old) (W.contents output.new) (last_text progress.number (start_in progress.held hold.now))) }
{
    let last = lister::finish(progress, hold, out);
    output.write_all(&out[..last])
}

// A proved loop has to terminate, but the input need not end. So the turns are counted, up to a
// number that no run uses up. A failed read counts as the end of the input, and is then the error
// that is returned. A failed write ends the program. So does a block that is not taken whole, when
// line numbers below 2^64 run out.
fn list_all<R: Read, W: Write>(
    input: &mut R,
    output: &mut W,
    hold: &mut [u8; 289],
    block: &mut [u8],
    out: &mut [u8],
) -> io::Result<()>
    requires { (64 ≤ length out.old) × (length block.old * 64 ≤ length out.old) }
    ensures { OnOk result (0 < length block.old → Listed (R.remaining input.old) (R.remaining input.new) (W.contents output.old) (W.contents output.new)) }
{
    let mut progress = lister::start();
    for _ in 0..u64::MAX {
        let n = match input.read(block) {
            Ok(n) => n,
            Err(e) => {
                write_last(progress, hold, out, output)?;
                return Err(e);
            }
        };
        if n == 0 {
            return write_last(progress, hold, out, output);
        }
        let fed = lister::feed(progress, hold, &block[..n], out);
        let ready = fed.ready;
        output.write_all(&out[..ready])?;
        if fed.taken < n {
            return Err(io::Error::other("no line number below 2^64 is left"));
        }
        progress = fed.progress;
    }
    Err(io::Error::other("the input did not end within 2^64 reads"))
}

// Ends with status 0 after a failed read or write, too.
fn main(rt: HostRuntime) {
    let mut hold = [0u8; 289];
    let mut block = block_buffer();
    let mut out = output_buffer();
    let _ = list_all(
        &mut rt.stdin(),
        &mut rt.stdout(),
        &mut hold,
        &mut block,
        &mut out,
    );
}

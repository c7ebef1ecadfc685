// Reads lines and writes one line of output for each. Tests the packet layer on stored vectors in
// this way.
#![tactic(auto)]

mod hex;
mod packets;

ghost use Rattle.std.specs.Prelude.{◌<◌, ◌≡◌, length, take, IfOk};
ghost use Rattle.std.specs.Io.{ReadsAtMost};
ghost use Rattle.std.specs.Io.KnownBytes.{Consumes, IsAtEnd};

pub use hex::unhex;
pub use packets::{Packets, mark, put_written};
use std::io;
use std::io::{Read, Write};
use test_records::Output;

// What writes a line of output for a line of input, and may keep a state from line to line.
pub trait Responder {
    fn respond(&mut self, line: &[u8], out: &mut Output);
}

// A buffer for all that a test program reads or writes.
pub fn large_buffer() -> [u8; 1310720]
    ensures { 1310720 ≡ length result }
{
    [0; 1310720]
}

// Writes one line of output for each line of input.
pub fn respond_to_all<T: Responder>(responder: &mut T, input: &[u8], out: &mut Output) {
    for line in input.split_inclusive(|c| *c == b'\n') {
        responder.respond(line.strip_suffix(b"\n").unwrap_or(line), out);
        out.byte(b'\n');
    }
}

// Reads until the input ends or the buffer is full, and returns how many bytes were read.
pub fn read_input<R: Read>(reader: &mut R, input: &mut [u8]) -> io::Result<usize>
    ensures bound { ReadsAtMost result input.new }
    ensures bytes { IfOk result (λ n. Consumes (R.remaining reader.old) (R.remaining reader.new) (take n input.new)) }
    ensures end { IfOk result (λ n. n < length input.new → IsAtEnd (R.remaining reader.new)) }
{
    let mut done = 0;
    // Each turn adds as many bytes as `read` gave, so no iterator counts the turns.
    while done < input.len() {
        let n = reader.read(&mut input[done..])?;
        if n == 0 {
            return Ok(done);
        }
        done += n;
    }
    Ok(done)
}

// Responds on standard output to the lines on standard input, as far as the buffers reach.
pub fn serve<T: Responder, R: Read, W: Write>(
    responder: &mut T,
    reader: &mut R,
    writer: &mut W,
    input: &mut [u8],
    output: &mut [u8],
) -> io::Result<()> {
    let got = read_input(reader, input)?;
    let mut out = Output::new(output);
    respond_to_all(responder, &input[..got], &mut out);
    writer.write_all(out.written())
}

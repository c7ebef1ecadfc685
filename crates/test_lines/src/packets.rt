use crate::{Responder, unhex};
use packet::{Packet, Refusal};
use ranges::Translation;
use test_records::{Input, Output, Record};

fn put_again(packet: Packet, payload: &[u8], out: &mut Output) {
    let mut space = [0; 144];
    match writer::write_packet(packet, payload, &mut space) {
        Ok(n) => out.hex(space.get(..n).unwrap_or(&[])),
        Err(r) => out.bad(r as u8),
    }
}

// Writes a packet's record, a tab, and the packet encoded again.
fn read_one(bytes: &[u8], out: &mut Output) {
    match reader::read_packet(bytes) {
        Ok(packet) => {
            let payload = reader::payload(bytes);
            let record = Record {
                packet,
                length: (bytes.len() % 65536) as u16,
                payload,
            };
            record.put(out);
            out.byte(b'\t');
            put_again(packet, payload, out);
        }
        Err(r) => out.bad(r as u8),
    }
}

// Fills a buffer with values that show whether a byte was changed or moved.
pub fn mark(space: &mut [u8]) {
    for (i, byte) in space.iter_mut().enumerate() {
        *byte = 255 - (i % 251) as u8;
    }
}

// Writes the packet, a tab, and the rest of its buffer; or the refusal, a tab,
// and the whole buffer.
pub fn put_written(written: Result<usize, Refusal>, space: &[u8], out: &mut Output) {
    match written {
        Ok(n) => {
            let (packet, rest) = space.split_at_checked(n).unwrap_or((&[], &[]));
            out.hex(packet);
            out.byte(b'\t');
            out.hex(rest);
        }
        Err(r) => {
            out.bad(r as u8);
            out.byte(b'\t');
            out.hex(space);
        }
    }
}

fn write_into(record: Record, space: &mut [u8], out: &mut Output) {
    mark(space);
    let written = writer::write_packet(record.packet, record.payload, space);
    put_written(written, space, out);
}

// Encodes the packet of a record into a buffer whose length the record gives, at most 512.
fn write_one(bytes: &[u8], out: &mut Output) {
    let record = Record::take(bytes);
    let mut space = [0; 512];
    let room = usize::from(record.length) % 513;
    write_into(record, &mut space[..room], out);
}

// Writes the base, the exponent of the size, and N, U, W and R.
fn put_sized(t: Translation, exponent: u32, out: &mut Output) {
    out.put(t.base);
    out.byte(b'\t');
    out.number(u64::from(exponent));
    out.byte(b'\t');
    for flag in [t.n, t.u, t.w, t.r] {
        out.byte(if flag { b'1' } else { b'0' });
    }
}

fn size_one(bytes: &[u8], out: &mut Output) {
    let t = ranges::translation_of(Input::new(bytes).take());
    match t.size {
        Some(exponent) => put_sized(t, exponent, out),
        None => out.text(b"NONE"),
    }
}

// The packet layer, tested on stored vectors. In these a line's first character says what its hex is:
// R, a packet to read; W, a record to write; any other, a translation to decode.
#[derive(Clone, Copy)]
pub struct Packets;

impl Responder for Packets {
    fn respond(&mut self, line: &[u8], out: &mut Output) {
        let (what, digits) = line.split_first().unwrap_or((&0, &[]));
        // The length limit of a packet's line is that of the listing; a record may be longer.
        if *what == b'R' && 288 < digits.len() {
            return out.bad(Refusal::BadLength as u8);
        }
        let mut space = [0; 4200];
        let Some(bytes) = unhex(digits, &mut space) else {
            return out.unreadable();
        };
        match what {
            b'R' => read_one(bytes, out),
            b'W' => write_one(bytes, out),
            _ => size_one(bytes, out),
        }
    }
}

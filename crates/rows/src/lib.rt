// The output line of a packet or of a refusal.
#![tactic(auto)]

mod put;

ghost use Rattle.std.specs.Prelude.{◌≡◌};
ghost use Rattle.rows.specs.Rows.{out_line, row_in};

use packet::Packet;
use put::Row;

// Writes the output line of line k, which holds a packet or is refused with a number, to the start of
// `out` and returns its length. An `out` of fewer than 64 bytes is left unchanged. Any byte is taken
// as a number, not only those of refusals.
pub fn put_row(k: u64, answer: Result<Packet, u8>, out: &mut [u8]) -> usize
    ensures { (result, out.new) ≡ row_in (out_line k answer) out.old }
{
    if out.len() < 64 {
        return 0;
    }
    let mut row = Row { out, at: 0 };
    row.decimal(k);
    row.byte(b'\t');
    match answer {
        Ok(p) => row.packet(p),
        Err(n) => row.bad(n),
    }
    row.byte(b'\n');
    row.at
}

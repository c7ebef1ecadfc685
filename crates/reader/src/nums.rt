// Numbers of a packet, high byte first. In place of the first three, one function for N bytes would
// leave `from_be_bytes` and a lemma for each width to every use.
ghost use Rattle.std.specs.Prelude.{◌≡◌, ◌+◌, ◌<◌, ◌≤◌, cond, ltb, length};
ghost use Rattle.packet.specs.Frames.{byte, num16_at, num32_at, num64_at};

// The 16-bit number at byte i.
pub(crate) fn num16(b: &[u8], i: usize) -> u16
    requires { i + 2 ≤ length b.now }
    ensures { result ≡ num16_at b.now i }
{
    u16::from_be_bytes([b[i], b[i + 1]])
}

// The 32-bit number at byte i.
pub(crate) fn num32(b: &[u8], i: usize) -> u32
    requires { i + 4 ≤ length b.now }
    ensures { result ≡ num32_at b.now i }
{
    u32::from_be_bytes([b[i], b[i + 1], b[i + 2], b[i + 3]])
}

// The 64-bit number at byte i.
pub(crate) fn num64(b: &[u8], i: usize) -> u64
    requires { i + 8 ≤ length b.now }
    ensures { result ≡ num64_at b.now i }
{
    u64::from(num32(b, i)) << 32 | u64::from(num32(b, i + 4))
}

// The number in bytes 12 to 15, or 0 in a shorter packet, as `decode_frame` has it.
pub(crate) fn dword12(b: &[u8]) -> u32
    ensures { result ≡ cond (ltb (length b.now) 16) 0 (num32_at b.now 12) }
{
    if b.len() < 16 { 0 } else { num32(b, 12) }
}

// The number in bytes 16 to 23, or 0 in a shorter packet, as `decode_frame` has it.
pub(crate) fn body(b: &[u8]) -> u64
    ensures { result ≡ cond (ltb (length b.now) 24) 0 (num64_at b.now 16) }
{
    if b.len() < 24 { 0 } else { num64(b, 16) }
}

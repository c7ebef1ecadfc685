// The bytes that a line of hex stands for; or none, if its length is odd, a character is not a hex
// digit, or the bytes do not fit into the space.
pub fn unhex<'a>(line: &[u8], space: &'a mut [u8]) -> Option<&'a [u8]> {
    if line.len() % 2 == 1 {
        return None;
    }
    let bytes = space.get_mut(..line.len() / 2)?;
    for (byte, pair) in bytes.iter_mut().zip(line.chunks_exact(2)) {
        let high = char::from(pair[0]).to_digit(16)?;
        let low = char::from(pair[1]).to_digit(16)?;
        *byte = (high * 16 + low) as u8;
    }
    Some(bytes)
}

// Items out of their digits.
ghost use Rattle.std.specs.Prelude.{◌<◌};

// The value of a digit 0 to 9 or a to f at a place, 0 for any other byte and past the end.
fn digit(s: &[u8], i: usize) -> u8
    ensures { result < 16 }
{
    match s.get(i) {
        Some(b @ b'0'..=b'9') => b - b'0',
        Some(b @ b'a'..=b'f') => b - b'a' + 10,
        _ => 0,
    }
}

// An item's 16 bytes, of two digits each: the vectors' own form, in an array as the reader takes it.
pub fn bytes(s: &[u8]) -> [u8; 16] {
    let mut bytes = [0; 16];
    for (byte, pair) in bytes.iter_mut().zip(s.chunks(2)) {
        *byte = digit(pair, 0) * 16 + digit(pair, 1);
    }
    bytes
}

// The number that bytes make, highest first. A fold: it takes four bytes and eight, so no `from_be_bytes`.
pub fn number(bytes: &[u8]) -> u64 {
    bytes.iter().fold(0, |v, b| v << 8 | u64::from(*b))
}

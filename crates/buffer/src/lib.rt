// A buffer that is lent, and may be too short.
#![tactic(auto)]

ghost use Rattle.std.specs.Prelude.{◌≡◌, set};

// A byte at place k of a lent buffer, if it has such a place. By a test and an index: with `get_mut`, which was tried, the clause has no proof, since
// nothing is known of what a buffer without the place is left as.
pub fn put(buffer: &mut [u8], k: usize, byte: u8)
    ensures { buffer.new ≡ set buffer.old k byte }
{
    if k < buffer.len() {
        buffer[k] = byte;
    }
}

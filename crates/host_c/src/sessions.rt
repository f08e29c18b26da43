// A tape in pieces: what a host calls (rule H10).
ghost use Rattle.std.specs.Prelude.{◌≡◌};
ghost use Rattle.std.proofs.lemmas.List.Edits.{sets};
ghost use Rattle.host_rules.specs.Sessions.{open_raw, feed, close};

use crossing::RawMachine;
use host_rules::{RawEnded, RawFed, RawSession};

// A session on a machine; where it is refused its answer is the number.
#[unsafe(no_mangle)]
pub extern "C" fn naszeptan_open(m: RawMachine, len: usize) -> RawSession
    ensures { result ≡ open_raw m len }
{
    host::sessions::naszeptan_open(m, len)
}

// A piece of the tape. The answers of the records that it finishes go to the buffer, as far as it has places.
#[unsafe(no_mangle)]
pub extern "C" fn naszeptan_feed(
    s: RawSession,
    mem: &mut [u64],
    piece: &[u8],
    answers: &mut [u8],
) -> RawFed
    ensures value { result ≡ (feed s mem.old piece.now).fed }
    ensures mem_after { mem.new ≡ (feed s mem.old piece.now).memory }
    ensures answers_after { answers.new ≡ sets answers.old 0 (feed s mem.old piece.now).answers }
{
    host::sessions::naszeptan_feed(s, mem, piece, answers)
}

// The end of the tape.
#[unsafe(no_mangle)]
pub extern "C" fn naszeptan_close(s: RawSession, len: usize) -> RawEnded
    ensures { result ≡ close s len }
{
    host::sessions::naszeptan_close(s, len)
}

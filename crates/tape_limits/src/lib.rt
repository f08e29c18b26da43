// One record held against the limits of its kind's bytes (rule R1). The table of limits is lent: `tape_whole` has it.
#![tactic(auto)]

ghost use Rattle.std.specs.Prelude.{◌≡◌, true, ◌+◌, ◌≤◌, length, ◌==◌};
ghost use Rattle.kinds.specs.Rows.{row};
ghost use Rattle.tape.specs.FirstBad.{read_number};
ghost use Rattle.tape_limits.specs.Inner as inner;
ghost use Rattle.tape_limits.specs.Inner.{word, covered, masks, within};

use tape::{FIRST_BYTE, RECORD_SIZE};

pub const KINDS: usize = 26;

// Four bytes as a number whose lowest byte is the first: most processors read them so at once.
#[tactic(auto, unfolding(crate::specs::Inner::word))]
fn word(s: &[u8; RECORD_SIZE], at: usize) -> u32
    requires { at + 4 ≤ length s.now }
    ensures { result ≡ word s.now at }
{
    u32::from_le_bytes([s[at], s[at + 1], s[at + 2], s[at + 3]])
}

// Four bytes have no bit that their limits have not.
#[tactic(auto, unfolding(crate::specs::Inner::covered))]
fn covered(s: &[u8; RECORD_SIZE], limits: &[u8; RECORD_SIZE], at: usize) -> bool
    requires { at + 4 ≤ length s.now }
    ensures { result ≡ covered (word s.now at) (word limits.now at) }
{
    let limit = word(limits, at);
    word(s, at) | limit == limit
}

// Every byte of a record is within its limit. A limit is ones from some bit down, so that a byte is within where it has no other bit, and
// four bytes are told at once. The three that have no limit are left out: `good` reads two of them, and the compiler would not join
// them with the others. The tests are joined by &, here and below: && would branch (docs/PERFORMANCE.md).
#[tactic(auto, using(crate::proofs::Words::within_is))]
fn within(s: &[u8; RECORD_SIZE], limits: &[u8; RECORD_SIZE]) -> bool
    requires { masks limits.now ≡ true }
    ensures { result ≡ within s.now limits.now }
{
    covered(s, limits, 12) & covered(s, limits, 8) & covered(s, limits, 4) & (s[3] <= limits[3])
}

// The largest value of each byte of a record of each kind, kind 1 first.
#[derive(Drop)]
pub struct Limits {
    pub table: [[u8; RECORD_SIZE]; KINDS],
    ghost of_rows: { table ≡ inner.table },
}

impl Limits {
    // Every byte of a record is within its kind's limit.
    #[tactic(auto, using(crate::proofs::Bounds::table_at, crate::proofs::Bounds::masks_at))]
    fn fits(&self, s: &[u8; RECORD_SIZE], kind: u8) -> bool
        requires lowest { 1 ≤ kind }
        requires highest { kind ≤ 26 }
        ensures { result ≡ within s.now (inner.limits (row kind)) }
    {
        within(s, &self.table[kind as usize - 1])
    }

    // Whether the reader takes a record of the right length. No event is built, and no branch goes by the kind, which a processor could not foretell.
    #[tactic(auto, using(crate::proofs::Bounds::good_in, crate::proofs::Bounds::good_out, tape::proofs::Laws::kind_in, tape::proofs::Laws::kind_low, tape::proofs::Laws::kind_high))]
    pub fn good(&self, s: &[u8; RECORD_SIZE]) -> bool
        ensures { result ≡ (read_number s.now == 0) }
    {
        let kind = s[1];
        match kind {
            1..=26 => (s[0] == FIRST_BYTE) & self.fits(s, kind),
            _ => false,
        }
    }
}

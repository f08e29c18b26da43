// The first record of a tape that has a number, whatever gives the number: `f` is what the closure computes of a record's bytes. The pass over a
// whole tape (`tape_whole`) and the converter (`editions`) go through their records so. An answer is a number here, as in `Found`.
ghost use Rattle.std.specs.Prelude.{◌≡◌, ◌/◌, ◌==◌, length, position, not, ℕ, List};
ghost use Rattle.tape.specs.Tape.{record_size};
ghost use Rattle.tape.specs.FirstBad.{first_bad};

use crate::{Found, RECORD_SIZE};
use base::answer;

// Its place among the records.
fn bad_place<F: Fn(&[u8; RECORD_SIZE]) -> u8>(
    records: &[[u8; RECORD_SIZE]],
    number: &F,
) -> Option<usize>
    ghost f: { List ℕ → ℕ }
    requires callable { F.IsAlwaysCallable number.now }
    requires computes { (x : _) (n : _) → F.post number.now x n → n ≡ f x.now }
    ensures { result ≡ position (λ r. not (f r == 0)) records.now }
{
    records
        .iter()
        .position(|record| number(record) != answer::DONE)
}

// Its number and its place, or 0 and the number of records.
#[tactic(auto, using(crate::proofs::FirstBad::by_place))]
pub fn first_bad<F: Fn(&[u8; RECORD_SIZE]) -> u8>(tape: &[u8], number: F) -> Found
    ghost f: { List ℕ → ℕ }
    requires callable { F.IsAlwaysCallable number }
    requires computes { (x : _) (n : _) → F.post number x n → n ≡ f x.now }
    ensures { result ≡ first_bad f tape.now 0 (length tape.now / record_size) }
{
    let (records, _) = tape.as_chunks::<RECORD_SIZE>();
    match bad_place(records, &number) {
        Some(index) => Found {
            answer: number(&records[index]),
            index,
        },
        None => Found {
            answer: answer::DONE,
            index: records.len(),
        },
    }
}

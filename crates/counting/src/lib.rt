// How many records of a tape have an answer (rules R2 and R3).
#![tactic(auto)]

ghost use Rattle.std.specs.Prelude.{◌≡◌, cond, nat_lt, ◌+◌};

// How many of n records have an answer, where so many were counted: the one that stopped the others has one too.
pub fn answered(count: usize, n: usize) -> usize
    ensures { result ≡ cond (nat_lt count n) (count + 1) count }
{
    if count < n { count + 1 } else { count }
}

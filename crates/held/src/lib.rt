// What a transaction holds in a valid machine: places, indices, lines, marks (rules V2, V10 to V12, V15), for any value of the struct.
#![tactic(auto)]

ghost use Rattle.std.specs.Prelude.{◌≡◌, not, ℕ, ◌<◌, ◌≤◌, ◌==◌, length, take};
ghost use Rattle.std.specs.List.{list_all};
ghost use Rattle.base.specs.Limits.{lines, most_memory, most_places};
ghost use Rattle.lines.specs.Inner.{same};
ghost use Rattle.lines.specs.Lines.{has, with};
ghost use Rattle.machine.specs.Valid.{unused_zero, no_line, holds_nothing, indices_inside, lines_inside, distinct, logs_line, writes_logged, marked_right, marks_right, held_right};

use base::{LINE, LINES, MEMORY, PLACES};
use lines::LineSet;
use transaction::{Entry, Transaction};

// Words of a set of doublewords, of 64 each.
const SEEN: usize = MEMORY / 64;

// A place of the log that is not used.
const UNUSED: Entry = Entry {
    index: 0,
    marks: 0,
    value: 0,
};

// Unused log places are zero.
pub fn unused_zero(x: &Transaction) -> bool
    ensures { result ≡ unused_zero x.now }
{
    x.count <= PLACES && x.log[x.count..].iter().all(|e| *e == UNUSED)
}

// By words, as `no_line` is defined.
fn no_line(s: &LineSet) -> bool
    ensures { result ≡ no_line s.now }
{
    s.words.iter().all(|word| *word == 0)
}

// Sets and log are empty. No `==` with an empty one: the log's places are `unused_zero`'s, as `holds_nothing` is defined.
#[tactic(auto, unfolding(machine::specs::Valid::holds_nothing))]
pub fn holds_nothing(x: &Transaction) -> bool
    ensures { result ≡ holds_nothing x.now }
{
    no_line(&x.reads) && no_line(&x.writes) && x.count == 0
}

// The used places of the log. It and those that call it ask for the count: `Transaction` says why no invariant does.
fn used(x: &Transaction) -> &[Entry]
    requires { x.now.count ≤ most_places }
    ensures value { result.now ≡ take x.now.count x.now.log }
    ensures len { length result.now ≡ x.now.count }
{
    &x.log[..x.count]
}

// All indices lie in memory.
fn indices_inside(x: &Transaction, len: usize) -> bool
    requires { x.now.count ≤ most_places }
    ensures { result ≡ indices_inside x.now len }
{
    used(x).iter().all(|e| (e.index as usize) < len)
}

// All lines lie in memory: none that begins at its end or past it is in a set.
fn lines_inside(x: &Transaction, len: usize) -> bool
    ensures { result ≡ lines_inside x.now len }
{
    x.reads.ends(&x.writes, len.div_ceil(LINE))
}

// One doubleword more in the set: whether it was not there before.
fn insert(seen: &mut [u64; SEEN], d: usize) -> bool
    requires { d < most_memory }
    ensures value { result ≡ not (has (record { words = seen.old }) d) }
    ensures seen_after { record { words = seen.new } ≡ with (record { words = seen.old }) d }
{
    let word = seen[d / 64];
    seen[d / 64] = word | 1 << (d % 64);
    word >> (d % 64) & 1 == 0
}

// None of the places has the index.
fn is_unlike(places: &[Entry], index: u32) -> bool
    ensures { result ≡ list_all (λ e. not (e.index == index)) places.now }
{
    places.iter().all(|e| e.index != index)
}

// Log indices are distinct. Indices past the largest memory are compared one by one: no valid log has one. A loop, since the set grows as it goes;
// an array of bits, since there is no heap.
fn distinct(x: &Transaction) -> bool
    requires { x.now.count ≤ most_places }
    ensures { result ≡ distinct x.now }
{
    let mut seen = [0; SEEN];
    let used = used(x);
    for (k, e) in used.iter().enumerate() {
        let d = e.index as usize;
        let fresh = if d < MEMORY {
            insert(&mut seen, d)
        } else {
            is_unlike(&used[..k], e.index)
        };
        if !fresh {
            return false;
        }
    }
    true
}

// The lines that the log has an index in. A line past the last is in no set.
fn logged(x: &Transaction) -> LineSet
    requires { x.now.count ≤ most_places }
    ensures { (l : ℕ) → l < lines → has result l ≡ logs_line x.now l }
{
    let mut s = LineSet::empty();
    for e in used(x) {
        let l = e.index as usize / LINE;
        if l < LINES {
            s.insert(l);
        }
    }
    s
}

// Two sets hold the same lines. By value: of words behind a reference no bound is known at the end, and the proof did not close.
fn same(a: LineSet, b: LineSet) -> bool
    ensures { result ≡ same a b }
{
    a == b
}

// The lines of the write set are those that the log has an index in.
fn writes_logged(x: &Transaction) -> bool
    requires { x.now.count ≤ most_places }
    ensures { result ≡ writes_logged x.now }
{
    same(x.writes, logged(x))
}

// A used place has a mark, and its bytes are zero where they have none.
#[tactic(auto, unfolding(machine::specs::Valid::marked_right))]
fn marked_right(e: &Entry) -> bool
    ensures { result ≡ marked_right e.now }
{
    e.marks != 0 && doubleword::only_marked(e.marks, e.value)
}

// All used places are so.
fn marks_right(x: &Transaction) -> bool
    requires { x.now.count ≤ most_places }
    ensures { result ≡ marks_right x.now }
{
    used(x).iter().all(marked_right)
}

// What a transaction holds is right: places, indices, lines, marks.
#[tactic(auto, using(machine::proofs::Laws::unused_count), unfolding(machine::specs::Valid::held_right))]
pub fn held_right(x: &Transaction, len: usize) -> bool
    ensures { result ≡ held_right x.now len }
{
    unused_zero(x)
        && indices_inside(x, len)
        && lines_inside(x, len)
        && distinct(x)
        && writes_logged(x)
        && marks_right(x)
}

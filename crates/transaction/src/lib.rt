// What a transaction holds: read set, write set and log (rules M9 to M13); what an event can touch and write, and causes.
#![tactic(auto)]

ghost use Rattle.std.specs.Prelude.{◌≡◌, ◌<◌, ◌≤◌, false, length};
ghost use Rattle.base.specs.Limits.{lines, pages, most_places};
ghost use Rattle.transaction.specs.Transaction.{line, empty, discard, lookup_in, lookup, load, touches, touches_page, crowded, full, join, store_at, put, commit};

use base::{FOOTPRINT, LINE, PLACES};
use lines::LineSet;

// A place of the log: a doubleword's index, a mark for each byte that was stored to it, and its bytes, 0 where none was stored.
#[repr(C)]
#[derive(Clone, Copy, PartialEq, Eq)]
pub struct Entry {
    pub index: u32,
    pub marks: u8,
    pub value: u64,
}

// The two sets and the log, of which `count` places are used; the others are zero. An array with its count: no heap, and C hands in the struct
// as it is. No invariant says so, nor that the count is at most PLACES: a host may hand in any machine, which `validity::judged` refuses by
// number 2. So the methods ask for the count.
#[repr(C)]
#[derive(Clone, Copy, PartialEq, Eq)]
pub struct Transaction {
    pub reads: LineSet,
    pub writes: LineSet,
    pub count: usize,
    pub log: [Entry; PLACES],
}

const NO_ENTRY: Entry = Entry {
    index: 0,
    marks: 0,
    value: 0,
};

// Why a transaction fails. How it is recorded: `thread::Thread::record`.
#[derive(Clone, Copy)]
pub enum Cause {
    Disallowed,
    Nesting,
    Footprint,
    OwnStore,
    PlainConflict,
    Conflict,
    Translation,
    Abort(u8),
}

// What an event touches: nothing, a line by a load or by a store, or a page by a tlbie. Other threads' transactions are held against it.
// A case for nothing, and no Option: `hits`, `struck` and `Lined` have one, and the theorems over them.
#[derive(Clone, Copy)]
pub enum Touch {
    Untouched,
    Load(usize),
    Store(usize),
    Page(usize),
}

// What an event writes to memory: nothing, marked bytes of a doubleword, or the log of its thread's transaction.
// Only definitions have it (`Effect`, `written`, the theorems over them): a case for nothing, and no Option.
#[derive(Clone, Copy)]
pub enum Write {
    Unwritten,
    Bytes { index: u32, marks: u8, value: u64 },
    Log,
}

// The last of some places that has a doubleword. One call of the library: its contract is `lookup_in`.
fn last_of(places: &[Entry], index: u32) -> Option<usize>
    ensures { result ≡ lookup_in places.now index (length places.now) }
{
    places.iter().rposition(|e| e.index == index)
}

// The marked bytes of a value to a doubleword of memory, if it is there.
#[inline]
pub fn put(memory: &mut [u64], index: usize, marks: u8, value: u64)
    ensures { memory.new ≡ put memory.old index marks value }
{
    if index < memory.len() {
        memory[index] = doubleword::merged(marks, memory[index], value);
    }
}

impl Transaction {
    // Holds nothing.
    #[tactic(auto, unfolding(crate::specs::Transaction::empty))]
    pub fn empty() -> Transaction
        ensures { result ≡ empty }
    {
        Transaction {
            reads: LineSet::empty(),
            writes: LineSet::empty(),
            count: 0,
            log: [NO_ENTRY; PLACES],
        }
    }

    // Sets and log emptied, whatever they held.
    #[tactic(auto, unfolding(crate::specs::Transaction::discard))]
    pub fn discard(&mut self)
        ensures { self.new ≡ discard self.old }
    {
        *self = Transaction::empty();
    }

    // The place of a doubleword among the log's used ones, of which the last counts.
    #[inline]
    #[tactic(auto, using(crate::proofs::Laws::lookup_first))]
    pub fn lookup(&self, index: u32) -> Option<usize>
        requires { self.now.count ≤ most_places }
        ensures { result ≡ lookup self.now index }
    {
        last_of(&self.log[..self.count], index)
    }

    // A doubleword of memory, under the bytes that the log has of it.
    #[inline]
    #[tactic(auto, using(crate::proofs::Laws::lookup_below), unfolding(crate::specs::Transaction::loaded))]
    pub fn load(&self, memory: &[u64], index: u32) -> u64
        requires count_bound { self.now.count ≤ most_places }
        requires index_in_bounds { index < length memory.now }
        ensures { result ≡ load self.now memory.now index }
    {
        let old = memory[index as usize];
        match self.lookup(index) {
            Some(n) => {
                let e = &self.log[n];
                doubleword::merged(e.marks, old, e.value)
            }
            None => old,
        }
    }

    // The line is in one of the sets. Its twin `touches_page` is of another type of place: one function of both would take two closures, for one
    // line. The bound of a line or a page is asked here and below, as in `LineSet::has`.
    #[inline]
    pub fn touches(&self, line: usize) -> bool
        requires { line < lines }
        ensures { result ≡ touches self.now line }
    {
        self.reads.has(line) || self.writes.has(line)
    }

    // A line of the page is in one of the sets.
    #[inline]
    pub fn touches_page(&self, page: usize) -> bool
        requires { page < pages }
        ensures { result ≡ touches_page self.now page }
    {
        self.reads.has_page(page) || self.writes.has_page(page)
    }

    // The line would be a new one while the footprint is full.
    #[inline]
    #[tactic(auto, unfolding(crate::specs::Transaction::crowded))]
    pub fn is_crowded(&self, line: usize) -> bool
        requires { line < lines }
        ensures { result ≡ crowded self.now line }
    {
        !self.touches(line) && self.reads.footprint(&self.writes) >= FOOTPRINT
    }

    // A store would need a new place while all are used.
    #[inline]
    #[tactic(auto, unfolding(crate::specs::Transaction::full))]
    pub fn is_full(&self, at: Option<usize>) -> bool
        ensures { result ≡ full self.now at }
    {
        at.is_none() && self.count >= PLACES
    }

    // A tracked load. The bound of its line is asked, as in `LineSet::has`.
    #[inline]
    pub fn join(&mut self, index: u32)
        requires { line index < lines }
        ensures { self.new ≡ join self.old index }
    {
        self.reads.insert(index as usize / LINE);
    }

    // A store into the log, in the place that the lookup found or in a new one.
    #[inline]
    #[tactic(auto, using(crate::proofs::Laws::lookup_below, crate::proofs::Laws::lookup_there), unfolding(crate::specs::Transaction::store_at, crate::specs::Transaction::stored, crate::specs::Transaction::full))]
    pub fn store_at(&mut self, at: Option<usize>, index: u32, marks: u8, value: u64)
        requires count_bound { self.old.count ≤ most_places }
        requires index_bound { line index < lines }
        requires at_value { at ≡ lookup self.old index }
        requires not_full { full self.old at ≡ false }
        ensures { self.new ≡ store_at self.old at index marks value }
    {
        self.writes.insert(index as usize / LINE);
        match at {
            Some(n) => {
                let e = &mut self.log[n];
                e.marks |= marks;
                e.value = doubleword::merged(marks, e.value, value);
            }
            None => {
                self.log[self.count] = Entry {
                    index,
                    marks,
                    value: doubleword::merged(marks, 0, value),
                };
                self.count += 1;
            }
        }
    }

    // Every place's marked bytes go to their doubleword.
    #[tactic(auto, using(crate::proofs::Laws::commit_step), unfolding(crate::specs::Transaction::commit_in))]
    pub fn commit(&self, memory: &mut [u64])
        requires { self.now.count ≤ most_places }
        ensures { memory.new ≡ commit self.now memory.old }
    {
        for e in &self.log[..self.count] {
            put(memory, e.index as usize, e.marks, e.value);
        }
    }
}

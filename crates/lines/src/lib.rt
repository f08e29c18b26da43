// Sets of lines: one bit for each of 256 lines, in four words (rules M9, M10 and M16).
#![tactic(auto)]

ghost use Rattle.std.specs.Prelude.{◌≡◌, ◌-◌, ◌<◌};
ghost use Rattle.base.specs.Limits.{lines, pages};
ghost use Rattle.lines.specs.Inner.{ends, shared, line_mask, page_mask};
ghost use Rattle.lines.specs.Lines.{empty, has, has_page, with, meets, footprint};

use base::WORDS;

#[repr(C)]
#[derive(Clone, Copy, PartialEq, Eq)]
pub struct LineSet {
    pub words: [u64; WORDS],
}

impl LineSet {
    #[inline]
    #[tactic(auto, unfolding(crate::specs::Lines::empty))]
    pub fn empty() -> LineSet
        ensures { result ≡ empty }
    {
        LineSet { words: [0; WORDS] }
    }

    // A line is a number, as in `Touch` and the rules; so is a page. Callers have its bound from the operand: a type for it would be built at
    // each call. It and `has_page` are alike in shape alone: each has a mask and a definition of its own.
    #[inline]
    #[tactic(auto, using(crate::proofs::Laws::shared_line))]
    pub fn has(&self, line: usize) -> bool
        requires { line < lines }
        ensures { result ≡ has self.now line }
    {
        shared(self.words[line / 64], line_mask(line))
    }

    // Has a line of the page: a page is half of word page / 2.
    #[inline]
    pub fn has_page(&self, page: usize) -> bool
        requires { page < pages }
        ensures { result ≡ has_page self.now page }
    {
        shared(self.words[page / 2], page_mask(page))
    }

    // One line more.
    #[inline]
    #[tactic(auto, unfolding(crate::specs::Lines::with))]
    pub fn insert(&mut self, line: usize)
        requires { line < lines }
        ensures { self.new ≡ with self.old line }
    {
        self.words[line / 64] |= line_mask(line);
    }

    // The two sets have a line in common. By an index: over `zip` with `any` (tried) the check has no bound on a word that the closure gets.
    #[inline]
    pub fn meets(&self, other: &LineSet) -> bool
        ensures { result ≡ meets self.now other.now }
    {
        for k in 0..WORDS {
            if shared(self.words[k], other.words[k]) {
                return true;
            }
        }
        false
    }

    // How many lines the two sets have together. Word k of both by one index, as the definition counts them: a pair of `zip` is no plainer.
    pub fn footprint(&self, other: &LineSet) -> u32
        ensures { result ≡ footprint self.now other.now }
    {
        let mut n = 0;
        for k in 0..WORDS {
            n += (self.words[k] | other.words[k]).count_ones();
        }
        n
    }

    // No line from n on is in either set. By an index, since a word's own place says which of its lines those are.
    pub fn ends(&self, other: &LineSet, n: usize) -> bool
        ensures { result ≡ ends self.now other.now n }
    {
        for k in 0..WORDS {
            let word = self.words[k] | other.words[k];
            let s = n.saturating_sub(64 * k);
            if s < 64 && word >> s != 0 {
                return false;
            }
        }
        true
    }
}

// Two words have a place that is set in both.
#[inline]
pub fn shared(a: u64, b: u64) -> bool
    ensures { result ≡ shared a b }
{
    a & b != 0
}

// A line's place in its word. It and `page_mask` take any number, as the rules' masks do.
#[inline]
pub fn line_mask(line: usize) -> u64
    ensures { result ≡ line_mask line }
{
    1 << (line % 64)
}

// A page's half of its word, which is word page / 2.
#[inline]
pub fn page_mask(page: usize) -> u64
    ensures { result ≡ page_mask page }
{
    if page % 2 == 0 {
        0x0000_0000_FFFF_FFFF
    } else {
        0xFFFF_FFFF_0000_0000
    }
}

// The lines that the program writes, put into a buffer that is lent (rules P3 to P5).
#![tactic(auto)]

ghost use Rattle.std.specs.Prelude.{◌≡◌, ◌+◌, ◌*◌, ◌≤◌, length, take};
ghost use Rattle.text_lines.specs.Inner.{written};
ghost use Rattle.text_lines.specs.Lines.{longest, digit, decimal, line, long, bad_line, end_line, lines};

// The longest input that is run; no text is longer. specs/Lines.antt has the same number.
pub const LONGEST: usize = 65536;

// A text and the buffer that is lent for it: what has no place there is left out, and what stands behind the text stays.
#[derive(Drop)]
pub struct Page<'a> {
    out: &'a mut [u8],
    at: usize,
}

impl<'a> Page<'a> {
    // No text yet.
    pub fn new(out: &'a mut [u8]) -> Page<'a>
        ensures same_reference { result.out.ghost_name ≡ out.entry.ghost_name }
        ensures out { result.out.now ≡ out.old }
        ensures at { result.at ≡ 0 }
    {
        Page::at(out, 0)
    }

    // A text as long as at: what is pushed goes to that place of the buffer and on.
    pub fn at(out: &'a mut [u8], at: usize) -> Page<'a>
        ensures same_reference { result.out.ghost_name ≡ out.entry.ghost_name }
        ensures out { result.out.now ≡ out.old }
        ensures at_value { result.at ≡ at }
    {
        Page { out, at }
    }

    // How long the text is, with what was left out.
    pub fn len(&self) -> usize
        ensures { result ≡ self.now.at }
    {
        self.at
    }

    // The text, as far as the buffer has places for it.
    pub fn text(&self) -> &[u8]
        ensures { result.now ≡ take self.now.at self.now.out.now }
    {
        &self.out[..self.at.min(self.out.len())]
    }

    // Bytes behind the text.
    pub fn push(&mut self, bytes: &[u8])
        requires { self.old.at + length bytes.now ≤ longest }
        ensures { self.new ≡ written self.old bytes.now }
    {
        for byte in bytes {
            buffer::put(self.out, self.at, *byte);
            self.at += 1;
        }
    }

    // A number below 10,000 in decimal: indices, counts and answers are. Not by `write!`, which may answer an error, and then no clause says what
    // was written: the text has none, whatever buffer is lent (`text::text`).
    #[tactic(auto, using(std::proofs::lemmas::Bool::Decides::nat_tests), unfolding(crate::specs::Lines::decimal))]
    fn decimal(&mut self, n: usize)
        requires { self.old.at + 4 ≤ longest }
        ensures { self.new ≡ written self.old (decimal n) }
    {
        let digits = [digit(n / 1000), digit(n / 100), digit(n / 10), digit(n)];
        match n {
            0..=9 => self.push(&digits[3..]),
            10..=99 => self.push(&digits[2..]),
            100..=999 => self.push(&digits[1..]),
            _ => self.push(&digits),
        }
    }

    // The line of a record: its index and its answer, which is the number that the text has (rules P3 and P4).
    // The number is written, whatever it is: the definition `line` has a number.
    #[tactic(auto, using(crate::proofs::Laws::written_line, crate::proofs::Laws::decimal_fits))]
    fn line(&mut self, k: usize, answer: u8)
        requires { self.old.at + 10 ≤ longest }
        ensures { self.new ≡ written self.old (line k answer) }
    {
        self.decimal(k);
        self.push(b" ");
        self.decimal(usize::from(answer));
        self.push(b"\n");
    }

    // A line for each answer.
    #[tactic(auto, using(crate::proofs::Laws::written_lines, crate::proofs::Laws::written_none, crate::proofs::Laws::line_fits))]
    pub fn lines(&mut self, answers: &[u8])
        requires { self.old.at + 10 * length answers.now ≤ longest }
        ensures { self.new ≡ written self.old (lines 0 answers.now) }
    {
        for (k, answer) in answers.iter().enumerate() {
            self.line(k, *answer);
        }
    }

    // The last line: how many records were done.
    #[tactic(auto, using(crate::proofs::Laws::written_end, crate::proofs::Laws::decimal_fits))]
    pub fn end_line(&mut self, n: usize)
        requires { self.old.at + 9 ≤ longest }
        ensures { self.new ≡ written self.old (end_line n) }
    {
        self.push(b"end ");
        self.decimal(n);
        self.push(b"\n");
    }

    // The one line of input that is too long.
    pub fn long_line(&mut self)
        requires { self.old.at + 5 ≤ longest }
        ensures { self.new ≡ written self.old long }
    {
        self.push(b"long\n");
    }

    // The one line of a tape with a bad record: its index and its number, as the text has it (rule P3).
    #[tactic(auto, using(crate::proofs::Laws::written_on), unfolding(crate::specs::Lines::bad_line))]
    pub fn bad_line(&mut self, k: usize, n: u8)
        requires { self.old.at + 14 ≤ longest }
        ensures { self.new ≡ written self.old (bad_line k n) }
    {
        self.push(b"bad ");
        self.line(k, n);
    }
}

// The last decimal digit, in ASCII.
fn digit(n: usize) -> u8
    ensures { result ≡ digit n }
{
    b'0' + (n % 10) as u8
}

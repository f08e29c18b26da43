// The bytes that the program writes for the bytes of standard input (rules P1 to P6).
#![tactic(auto)]

ghost use Rattle.std.specs.Prelude.{◌≡◌, length, nat_lt};
ghost use Rattle.std.proofs.lemmas.List.Edits.{sets};
ghost use Rattle.text_lines.specs.Inner.{written};
ghost use Rattle.text_lines.specs.Lines.{longest};
ghost use Rattle.text.specs.Inner.{is_bad};
ghost use Rattle.text.specs.Text.{text, ended};

use base::{MEMORY, answer};
use counting::answered;
use run_rules::Ended;
use tape::RECORD_SIZE;
use text_lines::{LONGEST, Page};

// The most records of a tape that is run.
const RECORDS: usize = LONGEST / RECORD_SIZE;

// Input that is too long to be run (rule P2).
fn is_long(input: &[u8]) -> bool
    ensures { result ≡ nat_lt longest (length input.now) }
{
    input.len() > LONGEST
}

// Whether a run's answer is the number of a bad record, by number, as `Ended` has it. No event is refused by one of these.
// The answer is a number, as `Ended` has it.
fn is_bad(answer: u8) -> bool
    ensures { result ≡ is_bad answer }
{
    matches!(answer, answer::TAPE_LENGTH..=answer::FIELD)
}

// The text, written on a page that is empty, and what the run ended with; nothing where the input is too long to be run (rule P2). Any other
// is run on a fresh machine with fresh memory. The run judges the whole tape before its first record. Where it finds a bad one, its
// number and its index are all of the text (rule P3). Memory and answers are arrays: the program runs any tape without asking for memory.
pub fn write(input: &[u8], page: &mut Page) -> Option<Ended>
    requires { page.old.at ≡ 0 }
    ensures page_after { page.new ≡ written page.old (text input.now) }
    ensures value { result ≡ ended input.now }
{
    if is_long(input) {
        page.long_line();
        return None;
    }
    let mut memory = [0; MEMORY];
    let mut answers = [0; RECORDS];
    let ended = run::run(machine::fresh(), &mut memory, input, &mut answers);
    if is_bad(ended.answer) {
        page.bad_line(ended.index, ended.answer);
    } else {
        let n = answered(ended.count, input.len() / RECORD_SIZE);
        page.lines(&answers[..n]);
        page.end_line(ended.count);
    }
    Some(ended)
}

// The text in a buffer, and how long it is. Any buffer may be lent: what has no place in it is left out, and what stands behind the text stays.
// It is no String, since that can run out of memory, and the text is there whatever the input is.
pub fn text(input: &[u8], out: &mut [u8]) -> usize
    ensures value { result ≡ length (text input.now) }
    ensures out_after { out.new ≡ sets out.old 0 (text input.now) }
{
    let mut page = Page::new(out);
    write(input, &mut page);
    page.len()
}

// The program (rules P1 to P7): standard input is a tape, which is run on a fresh machine; the text goes to standard output, and why it
// stopped to standard error.
#![tactic(auto)]

ghost use Rattle.std.specs.Prelude.{IfOk};
ghost use Rattle.std.specs.Counts.{IsPrefixLen};

use std::io;
use std::io::Read;
use text_lines::{LONGEST, Page};

// One byte more than the longest input, so that a longer one is seen to be too long.
const BUFFER: usize = 65537;

// Reads until the buffer is full or the input ends. No `read_to_end`: that reads to the heap, where the program has fixed memory.
fn read_all<R: Read>(from: &mut R, buf: &mut [u8]) -> io::Result<usize>
    ensures { IfOk result (λ n. IsPrefixLen n buf.new) }
{
    let mut n: usize = 0;
    while n < buf.len() {
        match from.read(&mut buf[n..])? {
            0 => break,
            more => n += more,
        }
    }
    Ok(n)
}

// The system's words for an error, without its number.
fn without_number(text: &str) -> &str {
    match text.split_once(" (os error ") {
        Some((words, _)) => words,
        None => text,
    }
}

// What failed, and why. Where there is no memory for the words alone, the number stays behind them.
fn fail(rt: &HostRuntime, what: &str, error: io::Error) -> io::Result<()> {
    match format!(in rt.alloc(); "{error}") {
        Ok(text) => {
            let words = without_number(text.as_str());
            eprintln!(rt; "naszeptan: {what}: {words}")
        }
        Err(_) => eprintln!(rt; "naszeptan: {what}: {error}"),
    }
}

// The text of the input, written, and then why the run stopped, so that standard error has at most one line.
#[tactic(auto, using(text::proofs::Laws::text_fits))]
fn answer(rt: &HostRuntime, input: &[u8]) -> io::Result<()> {
    // Fixed memory, as the input's.
    let mut out = [0u8; LONGEST];
    let mut page = Page::new(&mut out);
    let ended = text::write(input, &mut page);
    let n = page.len();
    match rt.write_all(&out[..n]) {
        Ok(()) => words::tell(rt, input, ended.as_ref()),
        Err(error) => fail(rt, "standard output", error),
    }
}

// No contract can say what is read or written: all the work is in text::write.
fn main(rt: HostRuntime) {
    let mut input = [0u8; BUFFER];
    // Where standard error fails too, nobody is left to be told.
    let _ = match read_all(&mut rt.stdin(), &mut input) {
        Ok(n) => answer(&rt, &input[..n]),
        Err(error) => fail(&rt, "standard input", error),
    };
}

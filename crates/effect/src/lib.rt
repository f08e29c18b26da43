// An event that is not refused, done on its own thread and on memory (rules E1 to E26). Those on the thread alone are in crate `power`.
#![tactic(auto)]

pub mod ends;
pub mod loads;
pub mod pages;
pub mod stores;

ghost use Rattle.std.specs.Prelude.{◌≡◌, ◌+◌, ◌%◌, ◌≤◌, length};
ghost use Rattle.transaction.specs.Inner.{Lined};
ghost use Rattle.transaction.specs.declared.Touch.TheVariants.{Untouched};
ghost use Rattle.doubleword.specs.Doubleword.{bytes, doubleword_of, lowest};
ghost use Rattle.step_rules.specs.Effects.{effect};
ghost use Rattle.effect.specs.Landed.{landed, left};
ghost use Rattle.effect.specs.Inner.{Ready};

use base::answer::Completion;
use event::Event;
use power::{aborts, begins, plain, reclaims, returns, special, suspends};
use thread::Thread;
use thread::turns::Asked;
use transaction::Touch;

// How an event was done, and what it touches: other threads' transactions are held against that.
#[derive(Clone, Copy)]
pub struct Went {
    pub completion: Completion,
    pub touch: Touch,
}

// An event that touches no line.
fn quiet(completion: Completion) -> Went
    ensures { result ≡ record { completion = completion; touch = Untouched } }
{
    Went {
        completion,
        touch: Touch::Untouched,
    }
}

// Some bytes of a doubleword: its index, the lowest of them, and their number.
#[derive(Clone, Copy)]
pub struct Part {
    pub index: u32,
    pub low: u32,
    pub width: u32,
}

impl Part {
    // All eight.
    fn whole(index: u32) -> Part
        ensures { result ≡ record { index = index; low = 0; width = bytes } }
    {
        Part {
            index,
            low: 0,
            width: 8,
        }
    }

    // Fewer, at an address that is a multiple of their number.
    fn at(address: u32, width: u32) -> Part
        requires { width + address % bytes ≤ bytes }
        ensures { result ≡ record { index = doubleword_of address; low = lowest width address; width = width } }
    {
        Part {
            index: address / 8,
            low: doubleword::lowest(width, address),
            width,
        }
    }
}

// A register by its number, and what it is loaded with, or what its low bytes are stored to. It is no Result: a store is no load that failed.
enum Access {
    Load(u8, Part),
    Store(u8, Part),
}

// The event on its own thread and on memory. Loads of every width are one access, and so are stores: each then has one place where it is
// called, and the compiler puts it there (docs/PERFORMANCE.md). `Lined` says that a touched line or page is within the bounds, as `conflict::others`
// asks.
#[tactic(auto, using(crate::proofs::Laws::placed_all), unfolding(step_rules::specs::Effects::effect, transaction::specs::Transaction::written, event::specs::Event::operands_right, event::specs::Event::kind, event::specs::Event::fields_of, kinds::specs::Rows::row, kinds::specs::Rows::rows))]
pub fn effect(thread: &mut Thread, memory: &mut [u64], e: Event) -> Went
    requires { Ready e thread.old (length memory.old) }
    ensures landed { left result thread.new memory.new ≡ landed (effect e thread.old memory.old) thread.old.transaction memory.old }
    ensures lined { Lined result.touch }
{
    let access = match e {
        Event::Tbegin { r } => return quiet(begins::tbegin(thread, r)),
        Event::Tend { a } => return quiet(ends::tend(thread, memory, a)),
        Event::Tabort { ra } => return quiet(aborts::tabort(thread, ra)),
        Event::Tabortwc { to, ra, rb } => return quiet(aborts::tabortwc(thread, to, ra, rb)),
        Event::Tabortdc { to, ra, rb } => return quiet(aborts::tabortdc(thread, to, ra, rb)),
        Event::Tsr { l } => return quiet(suspends::tsr(thread, l)),
        Event::Tcheck { bf } => return quiet(reclaims::tcheck(thread, bf)),
        Event::Treclaim { ra } => return quiet(reclaims::treclaim(thread, ra)),
        Event::Trechkpt => return quiet(reclaims::trechkpt(thread)),
        Event::Mtspr { spr, ra } => return quiet(special::mtspr(thread, spr, ra)),
        Event::Mfspr { rt, spr } => return quiet(special::mfspr(thread, rt, spr)),
        Event::Addi { rt, ra, si } => return quiet(plain::addi(thread, rt, ra, si)),
        Event::Disallowed => return quiet(plain::disallowed(thread)),
        Event::Interrupt => return quiet(plain::interrupt(thread)),
        Event::Host { pr, tm } => return quiet(plain::host(thread, pr, tm)),
        Event::Rfid => return quiet(returns::rfid(thread)),
        Event::Mtmsrd { t, s, tm, pr } => {
            let asked = Asked { t, s, tm, pr };
            return quiet(returns::mtmsrd(thread, asked));
        }
        Event::Tlbie { page } => return pages::tlbie(thread, page),
        Event::Ld { rt, index } => Access::Load(rt, Part::whole(index)),
        Event::Lbz { rt, address } => Access::Load(rt, Part::at(address, 1)),
        Event::Lhz { rt, address } => Access::Load(rt, Part::at(address, 2)),
        Event::Lwz { rt, address } => Access::Load(rt, Part::at(address, 4)),
        Event::Std { ra, index } => Access::Store(ra, Part::whole(index)),
        Event::Stb { ra, address } => Access::Store(ra, Part::at(address, 1)),
        Event::Sth { ra, address } => Access::Store(ra, Part::at(address, 2)),
        Event::Stw { ra, address } => Access::Store(ra, Part::at(address, 4)),
    };
    match access {
        Access::Load(rt, part) => loads::load(thread, memory, rt, part),
        Access::Store(ra, part) => {
            let value = thread.live.gpr[ra as usize];
            let marks = doubleword::marks_of(part.low, part.width);
            let placed = doubleword::placed(part.low, part.width, value);
            stores::store(thread, memory, part.index, marks, placed)
        }
    }
}

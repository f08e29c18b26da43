// tabort., tabortwc. and tabortdc.
ghost use Rattle.std.specs.Prelude.{◌≡◌, ◌<◌, ◌≤◌, ◌^◌};
ghost use Rattle.base.specs.Answers.{completion_number};
ghost use Rattle.base.specs.Limits.{gprs};
ghost use Rattle.power_rules.specs.Common.{did, abort_cause};
ghost use Rattle.power_rules.specs.Compare.{turned, picked, holds};
ghost use Rattle.power_rules.specs.Aborts.{tabort, tabort_if, tabortwc, tabortdc};

use crate::common;
use base::answer::Completion;
use thread::{State, Thread};
use transaction::Cause;

// Half of the numbers that a word has, and a doubleword: those from here on are negative.
const WORD_HALF: u64 = 0x8000_0000;

const DOUBLEWORD_HALF: u64 = 0x8000_0000_0000_0000;

// A cause recorded in T and S.
#[tactic(auto, unfolding(power_rules::specs::Aborts::tabort))]
fn abort(t: &mut Thread, cause: Cause) -> Completion
    ensures { did (completion_number result) t.new ≡ tabort t.old.control.msr.state t.old cause }
{
    match t.control.msr.state {
        State::N => common::cr0_only(t),
        State::T => common::fails(t, cause),
        State::S => {
            common::show_state(t);
            common::dooms(t, cause, true)
        }
    }
}

// tabort. (RA)
// It and `mtmsrd` in `returns` are alike in shape alone.
pub fn tabort(t: &mut Thread, ra: u8) -> Completion
    requires { ra < gprs }
    ensures { did (completion_number result) t.new ≡ tabort t.old.control.msr.state t.old (abort_cause t.old ra) }
{
    abort(t, common::abort_cause(t, ra))
}

// The sign turned over: signed numbers are ordered as these. In this module half is one of the two constants above; a type for it would say no more
// than the bound does.
fn turned(half: u64, a: u64) -> u64
    requires { half ≤ 2 ^ 63 }
    ensures { result ≡ turned half a }
{
    if a < half { a + half } else { a - half }
}

// A comparison that TO chooses, and that holds.
#[tactic(auto, unfolding(power_rules::specs::Compare::picked))]
fn picked(to: u8, w: u8, test: bool) -> bool
    requires { 0 < w }
    ensures { result ≡ picked to w test }
{
    to / w % 2 == 1 && test
}

// One of the five comparisons of numbers below 2 × half is chosen and holds.
#[tactic(auto, unfolding(power_rules::specs::Compare::holds))]
pub fn holds(half: u64, to: u8, a: u64, b: u64) -> bool
    requires { half ≤ 2 ^ 63 }
    ensures { result ≡ holds half to a b }
{
    let c = turned(half, a);
    let d = turned(half, b);
    picked(to, 16, c < d)
        || picked(to, 8, d < c)
        || picked(to, 4, a == b)
        || picked(to, 2, a < b)
        || picked(to, 1, b < a)
}

// A conditional abort, by the comparisons of numbers below 2 × half.
#[tactic(auto, unfolding(power_rules::specs::Aborts::tabort_if))]
fn abort_if(t: &mut Thread, half: u64, to: u8, a: u64, b: u64) -> Completion
    requires { half ≤ 2 ^ 63 }
    ensures { did (completion_number result) t.new ≡ tabort_if t.old (holds half to a b) }
{
    if holds(half, to, a, b) {
        abort(t, Cause::Abort(0))
    } else {
        common::cr0_only(t)
    }
}

// tabortwc. (TO, RA, RB): words, the low 32 bits of the registers. It and `tabortdc` call one function, each with its own half and cut of the
// registers.
pub fn tabortwc(t: &mut Thread, to: u8, ra: u8, rb: u8) -> Completion
    requires ra_lt_gprs { ra < gprs }
    requires rb_lt_gprs { rb < gprs }
    ensures { did (completion_number result) t.new ≡ tabortwc t.old to ra rb }
{
    abort_if(
        t,
        WORD_HALF,
        to,
        t.live.gpr[ra as usize] % 0x1_0000_0000,
        t.live.gpr[rb as usize] % 0x1_0000_0000,
    )
}

// tabortdc. (TO, RA, RB): doublewords
pub fn tabortdc(t: &mut Thread, to: u8, ra: u8, rb: u8) -> Completion
    requires ra_lt_gprs { ra < gprs }
    requires rb_lt_gprs { rb < gprs }
    ensures { did (completion_number result) t.new ≡ tabortdc t.old to ra rb }
{
    abort_if(
        t,
        DOUBLEWORD_HALF,
        to,
        t.live.gpr[ra as usize],
        t.live.gpr[rb as usize],
    )
}

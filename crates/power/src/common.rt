// What the events share: the next address, CR0 from state, the thread's own failure, what RA tells.
ghost use Rattle.std.specs.Prelude.{◌≡◌, ◌<◌};
ghost use Rattle.base.specs.Answers.{completion_number};
ghost use Rattle.base.specs.Limits.{gprs};
ghost use Rattle.power_rules.specs.Access.{meets_own};
ghost use Rattle.power_rules.specs.Common.{did, next, advance, passes, ts_field, cr0_from_state, cr0_only, leveled, own_recording, fails, dooms, gpr_or_0, abort_cause};

use base::answer::Completion;
use thread::{State, Thread};
use transaction::Cause;

// The address after.
#[inline]
pub fn next(a: u64) -> u64
    ensures { result ≡ next a }
{
    a.wrapping_add(4)
}

// The two TS bits between two zeros: CR0's own table. SRR1's is `ts` in `thread::turns`.
#[inline]
pub fn ts_field(s: State) -> u8
    ensures value { result ≡ ts_field s }
    ensures upper_bound { result < 8 }
{
    match s {
        State::N => 0b0000,
        State::T => 0b0100,
        State::S => 0b0010,
    }
}

// The thread goes on behind its instruction.
#[inline]
pub fn advance(t: &mut Thread)
    ensures { t.new ≡ advance t.old }
{
    t.control.nia = next(t.control.nia);
}

// CR0 from state.
#[inline]
pub fn show_state(t: &mut Thread)
    ensures { t.new ≡ cr0_from_state t.old }
{
    t.cr0 = ts_field(t.control.msr.state);
}

// Done, with nothing else.
#[inline]
pub fn passes(t: &mut Thread) -> Completion
    ensures { did (completion_number result) t.new ≡ passes t.old }
{
    advance(t);
    Completion::Done
}

// Done, with CR0 from state.
#[inline]
pub fn cr0_only(t: &mut Thread) -> Completion
    ensures { did (completion_number result) t.new ≡ cr0_only t.old }
{
    show_state(t);
    passes(t)
}

// The same with TEXASR anew, for a level up or down.
pub fn leveled(t: &mut Thread, texasr: u64) -> Completion
    ensures { did (completion_number result) t.new ≡ leveled t.old texasr }
{
    t.control.failure.texasr = texasr;
    cr0_only(t)
}

// A cause recorded for the thread's own instruction: TEXASR's exact bit is 1.
pub fn own_recording(t: &mut Thread, cause: Cause)
    ensures { t.new ≡ own_recording t.old cause }
{
    t.record(cause, true, t.control.nia);
}

// The thread's own failure in T: recorded, and handled in the same event.
#[tactic(auto, unfolding(power_rules::specs::Common::fails))]
pub fn fails(t: &mut Thread, cause: Cause) -> Completion
    ensures { did (completion_number result) t.new ≡ fails t.old cause }
{
    own_recording(t, cause);
    t.handle();
    Completion::Handled
}

// The thread's own failure in S waits for tresume. It counts as recorded only if this event recorded it.
// exact is the bit that the definition `dooms` takes and that TEXASR has, here and in `meets_own`.
#[tactic(auto, unfolding(power_rules::specs::Common::dooms))]
pub fn dooms(t: &mut Thread, cause: Cause, exact: bool) -> Completion
    ensures { did (completion_number result) t.new ≡ dooms t.old cause exact }
{
    let before = t.control.failed();
    t.record(cause, exact, t.control.nia);
    advance(t);
    if before {
        Completion::Done
    } else {
        Completion::Recorded
    }
}

// In S: an event that meets the thread's own sets fails its transaction. met is what the definition `meets_own` takes.
#[tactic(auto, unfolding(power_rules::specs::Access::meets_own))]
pub fn meets_own(t: &mut Thread, met: bool, cause: Cause, exact: bool) -> Completion
    ensures { did (completion_number result) t.new ≡ meets_own met t.old cause exact }
{
    if met {
        dooms(t, cause, exact)
    } else {
        passes(t)
    }
}

// Register RA, or 0 where RA = 0 names none. A register is a number, as the event's operand is, here and in the other modules: one above 31 was
// refused before, by number 4. A type for it would be built at each call.
#[inline]
pub fn gpr_or_0(t: &Thread, ra: u8) -> u64
    requires { ra < gprs }
    ensures { result ≡ gpr_or_0 t.now ra }
{
    if ra == 0 { 0 } else { t.live.gpr[ra as usize] }
}

// The cause of an abort or reclaim: its code is the low byte of RA, by %, as `abort_cause` is defined.
pub fn abort_cause(t: &Thread, ra: u8) -> Cause
    requires { ra < gprs }
    ensures { result ≡ abort_cause t.now ra }
{
    Cause::Abort((gpr_or_0(t, ra) % 256) as u8)
}

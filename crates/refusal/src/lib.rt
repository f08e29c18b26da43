// Which event is refused by the tests on its operands and on its own thread, and why (rules N1 and N2): 4, 5, 11, 12 and 13, in that order.
#![tactic(auto)]

ghost use Rattle.std.specs.Prelude.{◌≡◌};
ghost use Rattle.base.specs.Answers.{judgement_number};
ghost use Rattle.event.specs.Event.{kind, tm_instruction};
ghost use Rattle.step_rules.specs.Refusal.{bad_thing, turned_down, off, forbidden, host_in_t, refused_there};
ghost use Rattle.refusal.specs.Inner.{refused_at};

use base::GPRS;
use base::answer::Refusal;
use event::Event;
use thread::turns::{self, Asked};
use thread::{Control, State};

// Number 5: the host's event in T.
#[tactic(auto, unfolding(event::specs::Event::kind, event::specs::Event::fields_of))]
fn host_in_t(control: &Control, event: Event) -> bool
    ensures { result ≡ host_in_t control.now.msr.state (kind event) }
{
    matches!(event, Event::Host { .. }) && control.msr.state == State::T
}

// Number 11.
fn off(control: &Control, event: Event) -> bool
    ensures { result ≡ off control.now event }
{
    !control.msr.tm && event::tm_instruction(event)
}

// Number 12. It and `off` are one line each, of different bits and with definitions of their own.
fn forbidden(control: &Control, event: Event) -> bool
    ensures { result ≡ forbidden control.now event }
{
    control.msr.pr && event::privileged(event)
}

// Number 13: Bad Thing. trechkpt. wants N and FS = 1; a suspended handler may set SRR0 and SRR1, where mtspr is no TM instruction. A case
// for each state.
#[tactic(auto, unfolding(event::specs::Event::kind, event::specs::Event::fields_of, step_rules::specs::Refusal::bad_thing))]
fn bad_thing(control: &Control, event: Event) -> bool
    ensures { result ≡ bad_thing control.now.msr.state control.now (kind event) (tm_instruction event) }
{
    match control.msr.state {
        State::N => match event {
            Event::Treclaim { .. } => true,
            Event::Trechkpt => !control.failed(),
            _ => false,
        },
        State::T => matches!(event, Event::Trechkpt | Event::Mtspr { .. }),
        State::S => match event {
            Event::Tend { .. } | Event::Trechkpt => true,
            Event::Mtspr { .. } => event::tm_instruction(event),
            _ => false,
        },
    }
}

// Number 13 of rfid and mtmsrd.
#[tactic(auto, unfolding(step_rules::specs::Refusal::turned_down))]
fn turned_down(control: &Control, event: Event) -> bool
    ensures { result ≡ turned_down control.now event }
{
    match event {
        Event::Rfid => control.msr.is_bad(turns::by_srr1(control.saved.srr1)),
        Event::Mtmsrd { t, s, tm, pr } => control.msr.is_bad(Asked { t, s, tm, pr }),
        _ => false,
    }
}

// The tests on the event's own thread.
#[tactic(auto, unfolding(step_rules::specs::Refusal::refused_there))]
pub fn refused_there(control: &Control, event: Event) -> Result<(), Refusal>
    ensures { judgement_number result ≡ refused_there control.now event }
{
    if host_in_t(control, event) {
        return Err(Refusal::HostInT);
    }
    if off(control, event) {
        return Err(Refusal::FacilityOff);
    }
    if forbidden(control, event) {
        return Err(Refusal::Privileged);
    }
    if bad_thing(control, event) || turned_down(control, event) {
        return Err(Refusal::BadThing);
    }
    Ok(())
}

// Any event.
fn any_refused(control: &Control, event: Event, len: usize) -> Result<(), Refusal>
    ensures { judgement_number result ≡ refused_at control.now event len }
{
    if !event::operands_right(event, len) {
        return Err(Refusal::Operand);
    }
    refused_there(control, event)
}

// The tests on operands and on the event's own thread. Most events are of a few kinds, which pass at once, for speed: the way by the tables of kinds
// was timed at 7 ns an event and more.
#[tactic(auto, unfolding(step_rules::specs::Refusal::refused_there, step_rules::specs::Refusal::turned_down, step_rules::specs::Refusal::bad_thing, event::specs::Event::operands_right, event::specs::Event::tm_instruction, event::specs::Event::privileged, event::specs::Event::kind, event::specs::Event::fields_of))]
pub fn refused(control: &Control, event: Event, len: usize) -> Result<(), Refusal>
    ensures { judgement_number result ≡ refused_at control.now event len }
{
    match event {
        Event::Tbegin { .. } if control.msr.tm => Ok(()),
        Event::Tend { .. } if control.msr.tm && control.msr.state != State::S => Ok(()),
        Event::Ld { rt: gpr, index } | Event::Std { ra: gpr, index }
            if (gpr as usize) < GPRS && (index as usize) < len => { Ok(()) }
        Event::Addi { rt, ra, .. } if (rt as usize) < GPRS && (ra as usize) < GPRS => Ok(()),
        _ => any_refused(control, event, len),
    }
}

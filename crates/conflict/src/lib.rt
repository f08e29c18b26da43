// Conflicts with the other threads (rules A3 and A6): whom what an event touches makes fail, and by which cause.
#![tactic(auto)]

ghost use Rattle.std.specs.Prelude.{◌≡◌};
ghost use Rattle.transaction.specs.Inner.{Lined};
ghost use Rattle.step_rules.specs.Conflict.{hits, struck};
ghost use Rattle.conflict.specs.Inner.{cause, others_from};

use base::THREADS;
use thread::{State, Thread};
use transaction::{Cause, Touch, Transaction};

// A load meets those that have stored to the line alone, a store and a tlbie also those that have only loaded it.
// `Lined`, here and below: a line or a page is a number in `Touch`, which the definitions have without a bound.
#[tactic(auto, unfolding(step_rules::specs::Conflict::hits))]
fn hits(transaction: &Transaction, touch: Touch) -> bool
    requires { Lined touch }
    ensures { result ≡ hits transaction.now touch }
{
    match touch {
        Touch::Untouched => false,
        Touch::Load(line) => transaction.writes.has(line),
        Touch::Store(line) => transaction.writes.has(line) || transaction.reads.has(line),
        Touch::Page(page) => transaction.writes.has_page(page) || transaction.reads.has_page(page),
    }
}

// The cause is by the state that the access is made in.
pub fn cause(touch: Touch, state: State) -> Cause
    ensures { result ≡ cause touch state }
{
    match (touch, state) {
        (Touch::Page(_), _) => Cause::Translation,
        (_, State::T) => Cause::Conflict,
        _ => Cause::PlainConflict,
    }
}

// Another thread: a live transaction that is hit fails.
#[tactic(auto, unfolding(step_rules::specs::Conflict::struck))]
fn strike(thread: &mut Thread, touch: Touch, cause: Cause)
    requires { Lined touch }
    ensures { thread.new ≡ struck thread.old.control.msr.state thread.old touch cause }
{
    if thread.is_live() && hits(&thread.transaction, touch) {
        thread.fell(cause);
    }
}

// What thread w's touch leaves of the other threads, w's own event done already: state is the one that it was in before.
#[tactic(auto, using(crate::proofs::Laws::loop_steps), unfolding(crate::specs::Inner::others_from))]
pub fn others(threads: &mut [Thread; THREADS], w: usize, touch: Touch, state: State)
    requires { Lined touch }
    ensures { threads.new ≡ others_from state touch threads.old w }
{
    // Most events touch nothing.
    if matches!(touch, Touch::Untouched) {
        return;
    }
    let cause = cause(touch, state);
    for (k, thread) in threads.iter_mut().enumerate() {
        if k != w {
            strike(thread, touch, cause);
        }
    }
}

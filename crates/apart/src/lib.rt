// No line that one thread of a machine has written is in the sets of another (rule V13), for any value of the struct, however broken.
#![tactic(auto)]

ghost use Rattle.std.specs.Prelude.{◌≡◌, ◌<◌};
ghost use Rattle.base.specs.Limits.{most_threads};
ghost use Rattle.machine.specs.Valid.{clash, clear_of, apart};

use base::THREADS;
use machine::Machine;
use transaction::Transaction;

// One's written lines meet what another has read or written.
#[tactic(auto, unfolding(machine::specs::Valid::clash))]
fn clash(x: &Transaction, y: &Transaction) -> bool
    ensures { result ≡ clash x.now y.now }
{
    x.writes.meets(&y.reads) || x.writes.meets(&y.writes)
}

// Thread v's written lines meet no other thread's sets.
fn clear_of(m: &Machine, v: usize) -> bool
    requires { v < most_threads }
    ensures { result ≡ clear_of m.now v }
{
    (0..THREADS).all(|w| v == w || !clash(&m.threads[v].transaction, &m.threads[w].transaction))
}

// No two threads clash.
pub fn apart(m: &Machine) -> bool
    ensures { result ≡ apart m.now }
{
    (0..THREADS).all(|v| clear_of(m, v))
}

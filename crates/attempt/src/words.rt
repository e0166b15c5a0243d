// The gates of orders 4 to 8 on the runs that they are lent. The runs come as slices, as C lends them, and go on as one `Lent`.
ghost use Rattle.gate.specs.Lent.{at_entry, at_entry_mut, at_exit};
ghost use Rattle.gate.specs.Places.{parts};
ghost use Rattle.circuit.specs.Lent.{Left};
ghost use Rattle.order.specs.Tasks.{Fit, circuit_of, cost_of, other_of, source_of};
ghost use Rattle.attempt.specs.Supplies.{Supplied};

use circuit::Lent;
use compose::{compose, convert, multiply};
use decompose::decompose;
use gate::Sharing;
use order::Task;
use shift::shift;

// The gates of a task, whose words go to the heads of the channels. The tasks hold other fields each, so the one `match` that takes them
// out calls their functions too.
pub fn words(
    t: Task,
    m0: &[u64],
    m1: &[u64],
    m2: &[u64],
    c0: &mut [u64],
    c1: &mut [u64],
    c2: &mut [u64],
) -> Sharing
    requires fit { Fit t }
    requires supplied { Supplied (cost_of t) m0.now m1.now m2.now c0.old c1.old c2.old }
    ensures { Left (circuit_of t) (parts (source_of t)) (parts (other_of t)) (at_entry m0 m1 m2) (at_entry_mut c0 c1 c2) result (at_exit c0 c1 c2) }
{
    let lent = &mut Lent {
        m0,
        m1,
        m2,
        c0,
        c1,
        c2,
        at: 0,
    };
    match t {
        Task::Multiply(r, x, y) => multiply(r, x, y, lent),
        Task::Decompose(r, a, l) => decompose(r, a, l, lent),
        Task::Convert(e, f, a) => convert(e, f, a, lent),
        Task::Shift(r, a, s) => shift(r, a, s, lent),
        Task::Compose(f, w, l) => compose(f, w, l, lent),
    }
}

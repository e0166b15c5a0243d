// One order on the words of a record.
ghost use Rattle.std.specs.Prelude.{◌≡◌};
ghost use Rattle.gate.specs.Lent.{at_entry_mut, at_exit};
ghost use Rattle.step.specs.Lent.{Stands, TapesStand, tapes_at};
ghost use Rattle.interface.specs.Calls.{left, step_words};

use crate::MALFORMED;
use layout::{read_order, see, write_answer};
use order::refusal;
use step::step_words;

// 01's step; MALFORMED where the words of order, record or answer are in no layout, and then nothing changes.
// The runs stay slices, one a parameter: programs in other languages lend them so.
#[unsafe(no_mangle)]
pub extern "C" fn survey_step(
    order: &[u64],
    record: &mut [u64],
    m0: &[u64],
    m1: &[u64],
    m2: &[u64],
    dealer: &[u64],
    c0: &mut [u64],
    c1: &mut [u64],
    c2: &mut [u64],
    answer: &mut [u64],
) -> u64
    ensures is { left result «record».new answer.new (at_exit c0 c1 c2)
        ≡ step_words order.now «record».old answer.old (tapes_at m0 m1 m2 dealer) (at_entry_mut c0 c1 c2) }
    ensures lent { Stands order × TapesStand m0 m1 m2 dealer }
{
    if answer.len() != 3 {
        return MALFORMED;
    }
    let Some(sound) = see(record) else {
        return MALFORMED;
    };
    let Some(o) = read_order(order) else {
        return MALFORMED;
    };
    let given = step_words(sound, o, record, m0, m1, m2, dealer, c0, c1, c2);
    write_answer(given, answer);
    refusal(given)
}

// Sixty-four figures decomposed in one call.
ghost use Rattle.std.specs.Prelude.{◌≡◌};
ghost use Rattle.gate.specs.Lent.{at_entry, at_entry_mut, at_exit};
ghost use Rattle.step.specs.Lent.{Stands};
ghost use Rattle.interface.specs.Calls.{batch_words, decomposed};

use crate::MALFORMED;
use batch::decompose_batch;
use layout::write_answer;
use order::refusal;

// 02's batch; the answer is an order's. MALFORMED where the answer has not three words, and then nothing changes.
// The runs stay slices, one a parameter: programs in other languages lend them so.
#[unsafe(no_mangle)]
pub extern "C" fn survey_batch(
    width: u64,
    bits: u64,
    a0: &[u64],
    a1: &[u64],
    a2: &[u64],
    m0: &[u64],
    m1: &[u64],
    m2: &[u64],
    c0: &mut [u64],
    c1: &mut [u64],
    c2: &mut [u64],
    z0: &mut [u64],
    z1: &mut [u64],
    z2: &mut [u64],
    answer: &mut [u64],
) -> u64
    ensures is { decomposed result (at_exit c0 c1 c2) (at_exit z0 z1 z2) answer.new
        ≡ batch_words width bits (at_entry a0 a1 a2) (at_entry m0 m1 m2) (at_entry_mut c0 c1 c2) (at_entry_mut z0 z1 z2) answer.old }
    ensures lent { Stands a0 × Stands a1 × Stands a2 × Stands m0 × Stands m1 × Stands m2 }
{
    if answer.len() != 3 {
        return MALFORMED;
    }
    let given = decompose_batch(width, bits, a0, a1, a2, m0, m1, m2, c0, c1, c2, z0, z1, z2);
    write_answer(given, answer);
    refusal(given)
}

// One tape from raw words.
ghost use Rattle.std.specs.Prelude.{◌≡◌};
ghost use Rattle.step.specs.Lent.{Stands};
ghost use Rattle.tape.specs.Tapes.{count_of, refusal_of};
ghost use Rattle.interface.specs.Calls.{prepare_words, tape};

use crate::MALFORMED;
use tape::{Refused, prepare};

// 01's preparation; the answer is the refusal number or 0, and the raw words used. MALFORMED where the answer has not two words.
// The ring's code is a number: programs in other languages give one.
#[unsafe(no_mangle)]
pub extern "C" fn survey_prepare(code: u64, raw: &[u64], run: &mut [u64], answer: &mut [u64]) -> u64
    ensures is { tape result run.new answer.new ≡ prepare_words code raw.now run.old answer.old }
    ensures lent { Stands raw }
{
    if answer.len() != 2 {
        return MALFORMED;
    }
    let (refusal, count) = told(prepare(code, raw, run));
    answer.copy_from_slice(&[refusal, count]);
    refusal
}

// The refusal number or 0, and the raw words used. There is no From of a usize for a u64, and the cast loses nothing.
fn told(prepared: Result<usize, Refused>) -> (u64, u64)
    ensures { result ≡ (refusal_of prepared, count_of prepared) }
{
    match prepared {
        Ok(used) => (0, used as u64),
        Err(why) => (why.number(), 0),
    }
}

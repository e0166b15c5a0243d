// An answer in three words.
ghost use Rattle.std.specs.Prelude.{◌≡◌, length};
ghost use Rattle.layout.specs.Layout.{answer_words};

use machine::Answer;
use order::{gates, refusal, value};

// Writes the refusal number or 0, the value and the gates. The run stays a slice, as C lends it: its callers test its length before.
pub fn write_answer(a: Answer, words: &mut [u64])
    requires { length words.old ≡ 3 }
    ensures { words.new ≡ answer_words a }
{
    words.copy_from_slice(&[refusal(a), value(a), gates(a)]);
}

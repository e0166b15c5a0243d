// The two passes over the raw words: one that only counts, one that writes.
ghost use Rattle.std.specs.Prelude.{true, ◌≡◌, ◌<◌, length};
ghost use Rattle.tape.specs.Draws.{suffices};
ghost use Rattle.tape.specs.Tapes.{Filled, fill};

use crate::draws::{draw_item, low_bits};

// Whether the raw words suffice for n items. It counts those that fit, and draws none: no item is asked for here.
pub fn enough(width: u64, limit: u64, raw: &[u64], n: usize) -> bool
    requires { width < 64 }
    ensures { result ≡ suffices (fill width limit n 0 raw.now) }
{
    let mut left = n;
    for word in raw {
        if left == 0 {
            return true;
        }
        if low_bits(width, *word) < limit {
            left -= 1;
        }
    }
    left == 0
}

// Fills the run from raw words that suffice, and answers how many it used.
pub fn fill_run(width: u64, limit: u64, raw: &[u64], run: &mut [u64]) -> usize
    requires shift { width < 64 }
    requires enough { suffices (fill width limit (length run.old) 0 raw.now) ≡ true }
    ensures { fill width limit (length run.old) 0 raw.now ≡ Filled.filled run.new result }
{
    let mut at = 0;
    for slot in run.iter_mut() {
        let draw = draw_item(width, limit, raw, at).unwrap();
        *slot = draw.item;
        at = draw.next;
    }
    at
}

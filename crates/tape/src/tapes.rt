// Preparing a tape: the ring code, then the two passes.
ghost use Rattle.std.specs.Prelude.{◌≡◌, length};
ghost use Rattle.ring.specs.Lent.{Stands};
ghost use Rattle.tape.specs.Tapes.{fill, limit_of, number_of, outcome, prepared, settled, width_of};

use crate::items::Items;
use crate::passes::{enough, fill_run};

// Why no tape was prepared, each with 01's number. Not machine's `Refusal`: a tape stands below it, and meets these two alone.
#[derive(Clone, Copy, Debug, PartialEq, Eq)]
pub enum Refused {
    NoRing = 5,
    RawEnded = 12,
}

impl Refused {
    // 01's refusal number, as C answers it. No `From`: `why.number()` says what the u64 is, `u64::from(why)` not.
    pub fn number(self) -> u64
        ensures { result ≡ number_of self }
    {
        self as u64
    }
}

// Items for the whole run or not at all. Their width and limit are found here, once, and not at each raw word.
#[tactic(auto, using(crate::proofs::KindLaw::narrow))]
fn prepare_items(items: Items, raw: &[u64], run: &mut [u64]) -> Result<usize, Refused>
    ensures { outcome result run.new ≡ settled run.old (fill (width_of items) (limit_of items) (length run.old) 0 raw.now) }
{
    let width = items.width();
    let limit = items.limit();
    if enough(width, limit, raw, run.len()) {
        return Ok(fill_run(width, limit, raw, run));
    }
    Err(Refused::RawEnded)
}

// Fills the run with items for a ring code, and answers the count of raw words used, or leaves it as it was. C gives the code as
// a number, and any number may be given.
#[tactic(auto, unfolding(crate::specs::Tapes::prepared))]
pub fn prepare(code: u64, raw: &[u64], run: &mut [u64]) -> Result<usize, Refused>
    ensures is { outcome result run.new ≡ prepared code raw.now run.old }
    ensures lent { Stands raw }
{
    match Items::of_code(code).ok_or(Refused::NoRing)? {
        // Two calls of one function: in that for bits the compiler knows width and limit, and makes a loop without a test.
        Items::Bits => prepare_items(Items::Bits, raw, run),
        Items::Numbers(ring) => prepare_items(Items::Numbers(ring), raw, run),
    }
}

// One item at a time, from the raw words.
ghost use Rattle.std.specs.Prelude.{◌≡◌, ◌<◌};
ghost use Rattle.tape.specs.Draws.{Drew};
ghost use Rattle.tape.specs.Tapes.{low_bits};

// An item with the index of the next raw word: an index, not the words left, for the caller answers how many were used.
#[derive(Clone, Copy)]
pub struct Draw {
    pub item: u64,
    pub next: usize,
}

// The low bits of w.
pub fn low_bits(width: u64, w: u64) -> u64
    requires { width < 64 }
    ensures { result ≡ low_bits width w }
{
    w & ((1 << width) - 1)
}

// Draws from the raw words at `at` and on, until an item fits; none does where they end.
pub fn draw_item(width: u64, limit: u64, raw: &[u64], at: usize) -> Option<Draw>
    requires { width < 64 }
    ensures { Drew width limit at raw.now result }
{
    for i in at..raw.len() {
        let item = low_bits(width, raw[i]);
        if item < limit {
            return Some(Draw { item, next: i + 1 });
        }
    }
    None
}

// Tape lines from items.
ghost use Rattle.std.specs.Prelude.{◌≡◌, ◌+◌, ◌*◌, ◌≤◌, ◌<◌, length};
ghost use Rattle.line.specs.Printed.{Wrote};
ghost use Rattle.drawing.specs.Lines.{line_of, lines_of, per_line};

use crate::kinds::Kind;
use line::{DEALER, MASKS, put_field};

// How many items n lines take.
pub fn items_for(kind: Kind, n: usize) -> usize
    requires { n ≤ 512 }
    ensures is { result ≡ per_line kind * n }
    ensures few { result ≤ 1536 }
{
    match kind {
        Kind::Masks => 3 * n,
        Kind::Dealer => n,
    }
}

// Writes line k of the mask tapes at `at`, and answers the place after it. A loop over a line's items
// would be no plainer than these two functions: the byte behind the last one is another.
fn put_masks(items: &[u64], k: usize, out: &mut [u8], at: usize) -> usize
    requires items { 3 * (k + 1) ≤ length items.now }
    requires room { at + 84 ≤ length out.old }
    ensures writes { Wrote at (line_of Kind.Masks k items.now) out.old out.new result }
    ensures short { result ≤ at + 84 }
{
    let a = put_field(out, at, MASKS, b',');
    let b = put_field(out, a, items[3 * k], b',');
    let c = put_field(out, b, items[3 * k + 1], b',');
    put_field(out, c, items[3 * k + 2], b'\n')
}

// The same for the dealer's tape. The line goes to a place of a slice that the caller lends: there is no heap.
fn put_dealer(items: &[u64], k: usize, out: &mut [u8], at: usize) -> usize
    requires items { k < length items.now }
    requires room { at + 84 ≤ length out.old }
    ensures writes { Wrote at (line_of Kind.Dealer k items.now) out.old out.new result }
    ensures short { result ≤ at + 84 }
{
    let a = put_field(out, at, DEALER, b',');
    put_field(out, a, items[k], b'\n')
}

// Line k of either kind. The kind is known only here, where a line is put, so there is no function to be handed in.
fn put_line(kind: Kind, items: &[u64], k: usize, out: &mut [u8], at: usize) -> usize
    requires items { per_line kind * (k + 1) ≤ length items.now }
    requires room { at + 84 ≤ length out.old }
    ensures writes { Wrote at (line_of kind k items.now) out.old out.new result }
    ensures short { result ≤ at + 84 }
{
    match kind {
        Kind::Masks => put_masks(items, k, out, at),
        Kind::Dealer => put_dealer(items, k, out, at),
    }
}

// Writes n lines from the start on, and answers the place after them.
#[tactic(auto, using(crate::proofs::LinesLaw::more_items), unfolding(crate::specs::Lines::lines_of))]
pub fn put_lines(kind: Kind, items: &[u64], n: usize, out: &mut [u8]) -> usize
    requires items { per_line kind * n ≤ length items.now }
    requires room { 84 * n ≤ length out.old }
    ensures writes { Wrote 0 (lines_of kind n items.now) out.old out.new result }
    ensures short { result ≤ 84 * n }
{
    let mut at = 0;
    // By number, since a line's items are those of its number in the tape.
    for k in 0..n {
        at = put_line(kind, items, k, out, at);
    }
    at
}

// One gate of each kind.
ghost use Rattle.std.specs.Prelude.{[], ◌∷◌, ◌≡◌, ◌+◌, ◌<◌, ◌^◌};
ghost use Rattle.gate.specs.Places.{InRange};
ghost use Rattle.gate.specs.declared.sharing.Sharing.{Sharing};
ghost use Rattle.circuit.specs.Decompose.{carry_gate, raising_gate, running_gate, zero_gate};
ghost use Rattle.circuit.specs.Loans.{Sends, Supplied, gates_ran, items_next, words_sent};
ghost use Rattle.circuit.specs.Sharings.{zeros};
ghost use Rattle.decompose.specs.Turns.{majority_words};
ghost use Rattle.decompose.specs.Words.{bits_at, bits_xor, digits_of, stored, totalled};

use crate::words::{bits, store};
use circuit::{Lent, zeros};
use gate::{Sharing, bit_words};

// The majority of x, y and c: c XOR ((x XOR c) AND (y XOR c)).
fn majority(x: Sharing, y: Sharing, c: Sharing, lent: &mut Lent<'_>) -> Sharing
    requires first { InRange 2 x }
    requires second { InRange 2 y }
    requires third { InRange 2 c }
    requires supplied { Supplied 2 1 lent.old }
    ensures is { result ≡ bits_xor c (majority_words x y c (items_next lent.old)) }
    ensures below { InRange 2 result }
    ensures sent { Sends 1 (words_sent (majority_words x y c (items_next lent.old))) lent.old lent.new }
{
    let left = x ^ c;
    let right = y ^ c;
    let z = lent.gate(|t| bit_words(left, right, t));
    c ^ z
}

// Carry j + 1, from bits j of x_0, x_1 and x_2, each known at one place: so the three sharings are no map of b.
#[inline(always)]
pub fn carry_turn(x: Sharing, carries: Sharing, j: u64, lent: &mut Lent<'_>) -> Sharing
    requires bit { j < 63 }
    requires words { InRange (2 ^ (j + 1)) carries }
    requires supplied { Supplied 2 1 lent.old }
    ensures ran { Sends 1 (gates_ran (carry_gate j ∷ []) (digits_of x carries zeros zeros) (digits_of x result zeros zeros)) lent.old lent.new }
    ensures below { InRange (2 ^ (j + 1 + 1)) result }
{
    let b = bits(x, j);
    let none = zeros();
    let first = Sharing { s0: b.s0, ..none };
    let second = Sharing { s1: b.s1, ..none };
    let third = Sharing { s2: b.s2, ..none };
    let carry = majority(first, second, third, lent);
    store(carries, carry, j + 1)
}

// Running carry j + 1, from sum bit, carry and running carry j, which is the last; the carry's turn hands on to the majority too.
#[inline(always)]
pub fn running_turn(
    x: Sharing,
    carries: Sharing,
    last: Sharing,
    j: u64,
    lent: &mut Lent<'_>,
) -> Sharing
    requires bit { j < 63 }
    requires last { InRange 2 last }
    requires supplied { Supplied 2 1 lent.old }
    ensures ran { (running r : Sharing) → last ≡ bits_at running j → r ≡ stored running result (j + 1) →
        Sends 1 (gates_ran (running_gate j ∷ []) (digits_of x carries running zeros) (digits_of x carries r zeros)) lent.old lent.new }
    ensures below { InRange 2 result }
{
    let sum = bits(x, j);
    let second = bits(carries, j);
    majority(sum, second, last, lent)
}

// z = T0 OR T1, the first carry of the increment.
#[inline(always)]
pub fn zero_turn(total: Sharing, lent: &mut Lent<'_>) -> Sharing
    requires supplied { Supplied 2 1 lent.old }
    ensures ran { (x carries running : Sharing) → total ≡ totalled x carries running →
        Sends 1 (gates_ran (zero_gate ∷ []) (digits_of x carries running zeros) (digits_of x carries running result)) lent.old lent.new }
    ensures below { InRange 2 result }
{
    let left = bits(total, 0);
    let right = bits(total, 1);
    let z = lent.gate(|t| bit_words(left, right, t));
    left ^ right ^ z
}

// Carry j + 1 of the increment, from bit j + 2 of T and carry j, which is the last.
#[inline(always)]
pub fn raising_turn(total: Sharing, last: Sharing, j: u64, lent: &mut Lent<'_>) -> Sharing
    requires bit { j < 62 }
    requires last { InRange 2 last }
    requires supplied { Supplied 2 1 lent.old }
    ensures ran { (x carries running raising r : Sharing) → total ≡ totalled x carries running → last ≡ bits_at raising j → r ≡ stored raising result (j + 1) →
        Sends 1 (gates_ran (raising_gate j ∷ []) (digits_of x carries running raising) (digits_of x carries running r)) lent.old lent.new }
    ensures below { InRange 2 result }
{
    let left = bits(total, j + 2);
    lent.gate(|t| bit_words(left, last, t))
}

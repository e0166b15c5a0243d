// Words of 64 figures to planes, and back. In a ring of at most 32 bits two figures share a row, k in the low half and k + 32 in
// the high half: then 32 rows and five levels do. Results stay slices, of 64 words, as C lends them; planes are arrays.
ghost use Rattle.std.specs.Prelude.{◌≡◌, ◌+◌, ◌≤◌, length};
ghost use Rattle.ring.specs.Rings.{modulus_of, width_of};
ghost use Rattle.planes.specs.Planes.{Copied, Figures, NoneFrom, PlanesOf, Split, four_times_at, words_at};

use crate::squares::{transpose, transpose_halves};
use ring::Ring;

// The planes of x = 4 a modulo p, a figure a row.
fn wide_planes(r: Ring, a: &[u64], y: &mut [u64; 64])
    requires figures { Figures (modulus_of r) a.now }
    ensures is { PlanesOf (four_times_at (modulus_of r) a.now) y.new }
    ensures none { NoneFrom (width_of r) y.new }
{
    for k in 0..64 {
        let w = a[k];
        y[k] = r.four_times(w);
    }
    transpose(y);
}

// The same, two figures a row: a row is put together of two, so it is no other size of the loop above. Planes from 32 on are 0
// already: the ring has no such bit.
fn narrow_planes(r: Ring, a: &[u64], y: &mut [u64; 64])
    requires width { width_of r ≤ 32 }
    requires figures { Figures (modulus_of r) a.now }
    requires empty { NoneFrom 32 y.old }
    ensures is { PlanesOf (four_times_at (modulus_of r) a.now) y.new }
    ensures none { NoneFrom (width_of r) y.new }
{
    for k in 0..32 {
        let low = r.four_times(a[k]);
        let high = r.four_times(a[32 + k]);
        y[k] = low + (high << 32);
    }
    transpose_halves(&mut y[0..32], 1);
}

// The planes of x = 4 a modulo p, into a part whose words from 32 on are 0. The ring alone says which form, so none is handed over.
// An arm a ring: with `Ring::R13 | Ring::R31` a batch was some 4 in 100 slower, and missed its bar.
pub fn planes_of(r: Ring, a: &[u64], y: &mut [u64; 64])
    requires figures { Figures (modulus_of r) a.now }
    requires empty { NoneFrom 32 y.old }
    ensures is { PlanesOf (four_times_at (modulus_of r) a.now) y.new }
    ensures none { NoneFrom (width_of r) y.new }
{
    match r {
        Ring::R13 => narrow_planes(r, a, y),
        Ring::R31 => narrow_planes(r, a, y),
        Ring::R61 => wide_planes(r, a, y),
    }
}

// Word by word, o to z: `copy_from_slice` was tried, and is a call of memmove, which the tests refuse in the archive.
fn copy(o: &[u64; 64], z: &mut [u64])
    requires to { length z.old ≡ 64 }
    ensures { Copied 64 o.now z.new }
{
    for k in 0..64 {
        z[k] = o[k];
    }
}

// Two words a row of o become one a row of z.
fn split(o: &[u64; 64], z: &mut [u64])
    requires to { length z.old ≡ 64 }
    ensures { Split 32 o.now z.new }
{
    for k in 0..32 {
        let w = o[k];
        z[k] = w & 0xffff_ffff;
        z[32 + k] = w >> 32;
    }
}

// The words of 64 figures, from their planes, a figure a row. The planes are used up.
fn wide_rows(o: &mut [u64; 64], z: &mut [u64])
    requires room { length z.old ≡ 64 }
    ensures { PlanesOf (words_at z.new) o.old }
{
    transpose(o);
    copy(o, z);
}

// The same, two figures a row: a row is taken apart into two, where the other form copies it.
fn narrow_rows(o: &mut [u64; 64], z: &mut [u64])
    requires room { length z.old ≡ 64 }
    requires width { NoneFrom 32 o.old }
    ensures { PlanesOf (words_at z.new) o.old }
{
    transpose_halves(&mut o[0..32], 1);
    split(o, z);
}

// The words of 64 figures of a ring, from their planes, which are used up: the arms are as above, the steps are not.
pub fn rows_of(r: Ring, o: &mut [u64; 64], z: &mut [u64])
    requires room { length z.old ≡ 64 }
    requires width { NoneFrom (width_of r) o.old }
    ensures { PlanesOf (words_at z.new) o.old }
{
    match r {
        Ring::R13 => narrow_rows(o, z),
        Ring::R31 => narrow_rows(o, z),
        Ring::R61 => wide_rows(o, z),
    }
}

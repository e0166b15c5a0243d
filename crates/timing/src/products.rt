// Products in a ring, element by element.
ghost use Rattle.std.specs.Prelude.{◌≡◌, length};
ghost use Rattle.ring.specs.Lent.{Stands};
ghost use Rattle.ring.specs.Rings.{Sized, modulus_of};
ghost use Rattle.timing.specs.Products.{alike, multiplied, outcome, product, products};

use ring::{Ring, mul_mod};

// Whether both lengths are n: of three slices or channels in turn, so it takes their lengths and not them.
pub fn same_lengths(a: usize, b: usize, n: usize) -> bool
    ensures { result ≡ alike a b n }
{
    (a == n) & (b == n)
}

// x × y modulo p = 2^e - 1, or 0 where one is out of range. Width and modulus are found once before the loop over elements.
#[tactic(auto, unfolding(crate::specs::Products::product))]
fn checked_product(e: u64, p: u64, x: u64, y: u64) -> u64
    requires sized { Sized e p }
    ensures { result ≡ product p x y }
{
    if (x < p) & (y < p) {
        return mul_mod(e, p, x, y);
    }
    0
}

// Fills zs with the products of xs and ys.
fn multiply_all(r: Ring, xs: &[u64], ys: &[u64], zs: &mut [u64])
    requires left { length xs.now ≡ length zs.old }
    requires right { length ys.now ≡ length zs.old }
    ensures { zs.new ≡ products (modulus_of r) xs.now ys.now }
{
    let e = r.width();
    let p = r.modulus();
    for i in 0..zs.len() {
        zs[i] = checked_product(e, p, xs[i], ys[i]);
    }
}

// Products in the ring of a width, for slices of one length; answers how many, as C reads it.
#[unsafe(no_mangle)]
pub extern "C" fn timing_multiply(width: u64, xs: &[u64], ys: &[u64], zs: &mut [u64]) -> u64
    ensures is { outcome result zs.new ≡ multiplied width xs.now ys.now zs.old }
    ensures lent { Stands xs × Stands ys }
{
    let Some(r) = Ring::of_width(width) else {
        return 0;
    };
    if !same_lengths(xs.len(), ys.len(), zs.len()) {
        return 0;
    }
    multiply_all(r, xs, ys, zs);
    zs.len() as u64
}

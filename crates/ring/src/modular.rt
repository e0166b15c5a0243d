// Arithmetic modulo p = 2^e - 1: numbers and results are below p unless a contract says otherwise. They may be secret, so nothing
// here branches: shifts and masks stay what they are, while a compiler may make a jump of an `if` that picks one of two numbers.
// Width and modulus stay two numbers: a loop over gates finds each once, before it, and hands them on in registers.
ghost use Rattle.std.specs.Prelude.{◌≡◌, ◌+◌, ◌*◌, ◌/◌, ◌%◌, ◌<◌, ◌≤◌, ◌^◌};
ghost use Rattle.ring.specs.Modular.{Cong, diff};
ghost use Rattle.ring.specs.Rings.{Sized, modulus, rotated, u};

// a + b modulo p.
#[tactic(auto, using(crate::proofs::FoldLaw::modulus_room))]
pub fn add_mod(e: u64, p: u64, a: u64, b: u64) -> u64
    requires modulus { p ≡ modulus e }
    requires width { e < 64 }
    requires left { a < p }
    requires right { b < p }
    ensures is { result ≡ (a + b) % p }
    ensures below { result < p }
{
    reduce_once(e, p, a + b)
}

// a - b modulo p.
#[tactic(auto, using(crate::proofs::FoldLaw::modulus_room))]
pub fn sub_mod(e: u64, p: u64, a: u64, b: u64) -> u64
    requires modulus { p ≡ modulus e }
    requires width { e < 64 }
    requires left { a < p }
    requires right { b < p }
    ensures is { result ≡ diff p a b }
    ensures below { result < p }
{
    reduce_once(e, p, a + (p - b))
}

// a × b modulo p.
pub fn mul_mod(e: u64, p: u64, a: u64, b: u64) -> u64
    requires sized { Sized e p }
    requires left { a < p }
    requires right { b < p }
    ensures is { result ≡ (a * b) % p }
    ensures below { result < p }
{
    reduce_short(e, p, columns(e / 2, p, a, b, 0, 0))
}

// a × b + c × d + s modulo p, reduced once for all three.
pub fn mul_add_mod(e: u64, p: u64, a: u64, b: u64, c: u64, d: u64, s: u64) -> u64
    requires sized { Sized e p }
    requires left { (a < p) × (b < p) }
    requires right { (c < p) × (d < p) }
    requires sum { s < p + p }
    ensures is { result ≡ (a * b + c * d + s) % p }
    ensures below { result < p }
{
    reduce_short(e, p, fold(e, p, columns(e / 2, p, a, b, c, d)) + s)
}

// a × b + c × d modulo p = 2^(2k+1) - 1 in 64-bit words, not reduced: the factors are cut above bit k, the middle column at bit k.
#[tactic(auto, using(crate::proofs::WordLaw::columns_fit))]
fn columns(k: u64, p: u64, a: u64, b: u64, c: u64, d: u64) -> u64
    requires modulus { p ≡ modulus (2 * k + 1) }
    requires width { (2 ≤ k) × (k ≤ 30) }
    requires left { (a < p) × (b < p) }
    requires right { (c < p) × (d < p) }
    ensures is { Cong p result (a * b + c * d) }
    ensures below { (result < p * 2 ^ (2 * k + 1)) × (result < 15 * 2 ^ 60) }
{
    let low = p >> k;
    let a1 = a >> (k + 1);
    let a0 = a & low;
    let b1 = b >> (k + 1);
    let b0 = b & low;
    let c1 = c >> (k + 1);
    let c0 = c & low;
    let d1 = d >> (k + 1);
    let d0 = d & low;
    let m = a1 * b0 + a0 * b1 + (c1 * d0 + c0 * d1);
    2 * (a1 * b1 + c1 * d1) + (m >> k) + ((m << (k + 1)) & p) + (a0 * b0 + c0 * d0)
}

// s + 2^k × a modulo p, not reduced, of numbers that need not be.
pub fn add_rotated(e: u64, p: u64, k: u64, a: u64, s: u64) -> u64
    requires sized { Sized e p }
    requires places { k < e }
    requires number { a < 5 * p }
    requires sum { s < p + p }
    ensures is { Cong p result (s + 2 ^ k * a) }
    ensures below { result < p + p }
{
    fold(e, p, s + rotate_word(e, p, k, a))
}

// The low e - k bits of a move up by k, and what is above them comes in below.
fn rotate_word(e: u64, p: u64, k: u64, a: u64) -> u64
    requires modulus { p ≡ modulus e }
    requires width { e < 64 }
    requires places { k ≤ e }
    requires room { rotated e k a < 2 ^ 64 }
    ensures { result ≡ rotated e k a }
{
    ((a & (p >> k)) << k) + (a >> (e - k))
}

// s modulo p, of any word: four folds bring it below 2p at each width from 13 up.
pub fn reduce_word(e: u64, p: u64, s: u64) -> u64
    requires modulus { p ≡ modulus e }
    requires width { (13 ≤ e) × (e < 64) }
    ensures is { result ≡ s % p }
    ensures below { result < p }
{
    let twice = fold(e, p, fold(e, p, s));
    reduce_once(e, p, fold(e, p, fold(e, p, twice)))
}

// s modulo p, of a word with few bits above bit e: a fold and a subtraction at once, since s div p is s >> e or one more.
pub fn reduce_short(e: u64, p: u64, s: u64) -> u64
    requires modulus { p ≡ modulus e }
    requires width { (5 ≤ e) × (e < 64) }
    requires room { (s < p * 2 ^ e) × (s < 15 * 2 ^ 60) }
    ensures is { result ≡ s % p }
    ensures below { result < p }
{
    (s + ((s + (s >> e) + 1) >> e)) & p
}

// s modulo p, of 2^u times a number below p: one fold is the turn of that number's e bits left by u, which is the remainder (`FourTimes`).
pub fn reduce_multiple(e: u64, p: u64, s: u64) -> u64
    requires modulus { p ≡ modulus e }
    requires width { (2 ≤ e) × (e < 64) }
    requires multiple { s % 2 ^ u ≡ 0 }
    requires number { s < 2 ^ u * p }
    ensures is { result ≡ s % p }
    ensures below { result < p }
{
    fold(e, p, s)
}

// What is above bit e, added to what is below it: the same modulo p.
fn fold(e: u64, p: u64, s: u64) -> u64
    requires modulus { p ≡ modulus e }
    requires width { e < 64 }
    ensures { result ≡ s / 2 ^ e + s % 2 ^ e }
{
    (s >> e) + (s & p)
}

// s modulo p, of a sum of two numbers below p: with one more, s passes bit e just where p is to be taken away.
#[tactic(auto, using(crate::proofs::FoldLaw::modulus_room))]
pub fn reduce_once(e: u64, p: u64, s: u64) -> u64
    requires modulus { p ≡ modulus e }
    requires width { e < 64 }
    requires sum { s < p + p }
    ensures is { result ≡ s % p }
    ensures below { result < p }
{
    (s + ((s + 1) >> e)) & p
}

// A register in five words: tag, ring width or bit count, three sub-shares.
ghost use Rattle.std.specs.Prelude.{◌∷◌, ◌++◌, ◌≡◌, ◌≤◌, drop, length};
ghost use Rattle.layout.specs.Layout.{empty_from, register_of, register_words};

use gate::Sharing;
use machine::Register;
use ring::Ring;

// The words of a register.
pub const REGISTER_WORDS: usize = 5;

// The tags are numbers, since the layout is that of the C interface: so are the parameters that take one.
const EMPTY: u64 = 0;

const NUMBER: u64 = 1;

const BITS: u64 = 2;

// Reads the register at the front of the words, where they say one. A tag alone makes no register, so there is no From for it. A pattern of
// five words needs an arm for fewer, which the contract rules out, so the words are named one by one.
#[tactic(auto, unfolding(crate::specs::Layout::register_of, crate::specs::Layout::register_from))]
pub fn read_register(words: &[u64]) -> Option<Register>
    requires { 5 ≤ length words.now }
    ensures { result ≡ register_of words.now }
{
    let tag = words[0];
    let n = words[1];
    let x = Sharing {
        s0: words[2],
        s1: words[3],
        s2: words[4],
    };
    match tag {
        EMPTY => empty_from(n, x),
        NUMBER => Ring::of_width(n).map(|ring| Register::Number(ring, x)),
        BITS => Some(Register::Bits(n, x)),
        _ => None,
    }
}

// An empty register has no other word than 0. No derived comparison: it would stop at the first sub-share that differs.
fn empty_from(n: u64, x: Sharing) -> Option<Register>
    ensures { result ≡ empty_from n x }
{
    let blank = (n == 0) & ((x.s0 == 0) & ((x.s1 == 0) & (x.s2 == 0)));
    blank.then_some(Register::Empty)
}

// Writes a register to the front of the words.
pub fn write_register(r: Register, words: &mut [u64])
    requires { 5 ≤ length words.old }
    ensures { words.new ≡ register_words r ++ drop 5 words.old }
{
    match r {
        Register::Empty => put_words(EMPTY, 0, r.shares(), words),
        Register::Number(ring, x) => put_words(NUMBER, ring.width(), x, words),
        Register::Bits(l, x) => put_words(BITS, l, x, words),
    }
}

// Writes five words, and leaves the rest. The layout has the sub-shares one behind the other, so each is named.
fn put_words(tag: u64, n: u64, x: Sharing, words: &mut [u64])
    requires { 5 ≤ length words.old }
    ensures { words.new ≡ tag ∷ n ∷ x.s0 ∷ x.s1 ∷ x.s2 ∷ drop 5 words.old }
{
    words[..REGISTER_WORDS].copy_from_slice(&[tag, n, x.s0, x.s1, x.s2]);
}

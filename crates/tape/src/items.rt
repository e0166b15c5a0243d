// What a ring code asks for.
ghost use Rattle.std.specs.Prelude.{◌≡◌};
ghost use Rattle.tape.specs.Tapes.{asked, kind_of, limit_of, width_of};

use ring::Ring;

// Bits, or numbers of a ring. No Option of a ring: bits are items as numbers are, and not the lack of a ring.
#[derive(Clone, Copy, Debug, PartialEq, Eq)]
pub enum Items {
    Bits,
    Numbers(Ring),
}

// 01's ring code for bits.
const BITS: u64 = 1;

impl Items {
    // The items of a ring code, where it is one. An Option is all there is to say of another code: 01 has one number for it.
    #[tactic(auto, unfolding(crate::specs::Tapes::kind_of))]
    pub fn of_code(code: u64) -> Option<Items>
        ensures { asked result ≡ kind_of code }
    {
        if code == BITS {
            return Some(Items::Bits);
        }
        let ring = Ring::of_width(code)?;
        Some(Items::Numbers(ring))
    }

    // How many low bits of a raw word an item is.
    pub fn width(self) -> u64
        ensures { result ≡ width_of self }
    {
        match self {
            Items::Bits => 1,
            Items::Numbers(ring) => ring.width(),
        }
    }

    // What an item lies below. Like `width` in its cases alone: it is 2^1 for a bit, and 2^e - 1 for a number.
    pub fn limit(self) -> u64
        ensures { result ≡ limit_of self }
    {
        match self {
            Items::Bits => 2,
            Items::Numbers(ring) => ring.modulus(),
        }
    }
}

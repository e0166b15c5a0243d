// The ring type: widths, moduli and inverses of four; document 000's u.
ghost use Rattle.std.specs.Prelude.{◌≡◌};
ghost use Rattle.ring.specs.Rings.{modulus_of, quarter_of, ring_of, width_of};

// A ring of 01, "Rings, parts and units".
#[derive(Clone, Copy, Debug, PartialEq, Eq)]
pub enum Ring {
    R13,
    R31,
    R61,
}

impl Ring {
    pub const WIDTH_13: u64 = 13;

    pub const WIDTH_31: u64 = 31;

    pub const WIDTH_61: u64 = 61;

    // p = 2^e - 1.
    pub const MODULUS_13: u64 = (1 << Ring::WIDTH_13) - 1;

    pub const MODULUS_31: u64 = (1 << Ring::WIDTH_31) - 1;

    pub const MODULUS_61: u64 = (1 << Ring::WIDTH_61) - 1;

    // 4^(-1) modulo p, 2^(e-2).
    pub const QUARTER_13: u64 = 1 << (Ring::WIDTH_13 - 2);

    pub const QUARTER_31: u64 = 1 << (Ring::WIDTH_31 - 2);

    pub const QUARTER_61: u64 = 1 << (Ring::WIDTH_61 - 2);

    // u of document 000, the logarithm of 3 to base 2, rounded up: the quotient of three sub-shares' total by p fits u bits.
    pub const U: u64 = 2;

    // The ring of a width, where there is one. No `TryFrom`: the refusal is the caller's to name, so an error of its own would say nothing.
    #[tactic(auto, unfolding(crate::specs::Rings::ring_of))]
    pub fn of_width(e: u64) -> Option<Ring>
        ensures { result ≡ ring_of e }
    {
        match e {
            Ring::WIDTH_13 => Some(Ring::R13),
            Ring::WIDTH_31 => Some(Ring::R31),
            Ring::WIDTH_61 => Some(Ring::R61),
            _ => None,
        }
    }

    // e. A match over the names that `of_width` and a batch's check match on: as numbers of the cases they would stand a second time.
    pub fn width(self) -> u64
        ensures { result ≡ width_of self }
    {
        match self {
            Ring::R13 => Ring::WIDTH_13,
            Ring::R31 => Ring::WIDTH_31,
            Ring::R61 => Ring::WIDTH_61,
        }
    }

    // Matches over other constants, here and in `quarter`: nothing to share.
    // A shift by `self.width()` would make the check of a record slower by an eighth.
    #[tactic(auto, unfolding(crate::specs::Rings::modulus))]
    pub fn modulus(self) -> u64
        ensures { result ≡ modulus_of self }
    {
        match self {
            Ring::R13 => Ring::MODULUS_13,
            Ring::R31 => Ring::MODULUS_31,
            Ring::R61 => Ring::MODULUS_61,
        }
    }

    #[tactic(auto, unfolding(crate::specs::Rings::quarter))]
    pub fn quarter(self) -> u64
        ensures { result ≡ quarter_of self }
    {
        match self {
            Ring::R13 => Ring::QUARTER_13,
            Ring::R31 => Ring::QUARTER_31,
            Ring::R61 => Ring::QUARTER_61,
        }
    }
}

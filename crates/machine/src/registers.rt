// Registers and the machine record, by value.
ghost use Rattle.std.specs.Prelude.{◌≡◌, ◌+◌, ◌<◌, ◌^◌};
ghost use Rattle.machine.specs.Registers.{empty_machine, register_at, sound, sound_register, with_register};
ghost use Rattle.machine.specs.Step.{moved};

use gate::Sharing;
use ring::Ring;

// 01: "A register is empty, a number of a ring, or bits". No Option of the other two: an order's checks take the three at once.
#[derive(Clone, Copy)]
pub enum Register {
    Empty,
    Number(Ring, Sharing),
    Bits(u64, Sharing),
}

// 01: "The machine record has 16 registers (0 to 15) and three positions: strand, wire, dealer".
#[derive(Clone, Copy)]
pub struct Machine {
    pub slots: [Register; REGISTERS],
    pub masks_at: u64,
    pub channels_at: u64,
    pub dealer_at: u64,
}

// 01: "16 registers (0 to 15)".
pub const REGISTERS: usize = 16;

// 01: "each position is at most 1,000,000", and so is each lent run's length.
pub const MILLION: u64 = 1_000_000;

// 01: "1 to 59 bits".
const MOST_BITS: u64 = 59;

impl Register {
    // Each sub-share in range, and 1 to 59 bits.
    #[tactic(auto, unfolding(crate::specs::Registers::sound_register))]
    pub fn is_sound(self) -> bool
        ensures { result ≡ sound_register self }
    {
        match self {
            Register::Empty => true,
            Register::Number(r, x) => x.is_below(r.modulus()),
            Register::Bits(l, x) => bits_sound(l, x),
        }
    }
}

impl Machine {
    // 01: "each sub-share is in range, each bits register has 1 to 59 bits and each position is at most 1,000,000".
    pub fn is_sound(self) -> bool
        ensures { result ≡ sound self }
    {
        for r in self.slots {
            if !r.is_sound() {
                return false;
            }
        }
        (self.masks_at <= MILLION) & ((self.channels_at <= MILLION) & (self.dealer_at <= MILLION))
    }

    // Empty registers, zero positions. No `Default`: 01 calls it the empty machine.
    #[tactic(auto, unfolding(crate::specs::Registers::empty_machine))]
    pub fn empty() -> Machine
        ensures { result ≡ empty_machine }
    {
        Machine {
            slots: [Register::Empty; REGISTERS],
            masks_at: 0,
            channels_at: 0,
            dealer_at: 0,
        }
    }

    // Register k, empty past the last. Here and below a register's number is a u64, as C and a line give it,
    // and `as` loses nothing of one below 16.
    #[tactic(auto, unfolding(crate::specs::Registers::register_at))]
    pub fn register(self, k: u64) -> Register
        ensures { result ≡ register_at self k }
    {
        self.slots
            .get(k as usize)
            .copied()
            .unwrap_or(Register::Empty)
    }

    // The record with another register d.
    #[tactic(auto, unfolding(crate::specs::Registers::with_register))]
    pub fn with_register(mut self, d: u64, r: Register) -> Machine
        requires { d < 16 }
        ensures { result ≡ with_register self d r }
    {
        self.slots[d as usize] = r;
        self
    }

    // The record with positions that have risen.
    pub fn moved(mut self, gates: u64, words: u64, items: u64) -> Machine
        requires masks { self.masks_at + gates < 2 ^ 64 }
        requires channels { self.channels_at + words < 2 ^ 64 }
        requires dealer { self.dealer_at + items < 2 ^ 64 }
        ensures { result ≡ moved self gates words items }
    {
        self.masks_at += gates;
        self.channels_at += words;
        self.dealer_at += items;
        self
    }
}

// 1 to 59 bits, each word below 2^l.
fn bits_sound(l: u64, x: Sharing) -> bool
    ensures { result ≡ sound_register (Register.Bits l x) }
{
    if MOST_BITS < l {
        return false;
    }
    (1 <= l) & x.is_below(1 << l)
}

// A machine record in 83 words: sixteen registers, then three positions. It is read and changed where it stands.
// C lends it as a slice, so contracts say what its words say (`Says`).
ghost use Rattle.std.specs.Prelude.{◌≡◌, ◌+◌, ◌<◌, ◌^◌, get_or, length};
ghost use Rattle.machine.specs.Registers.{register_at};
ghost use Rattle.machine.specs.Step.{moved};
ghost use Rattle.order.specs.Changes.{Fits, Makes, changed, made};
ghost use Rattle.layout.specs.Layout.{Says, machine_of, seen_of};

use crate::registers::{REGISTER_WORDS, read_register, write_register};
use machine::{MILLION, Machine, REGISTERS, Refusal, Register};
use order::Change;

// The positions of mask tapes, channels and dealer's tape stand behind the registers.
pub const MASKS_AT: usize = REGISTERS * REGISTER_WORDS;

pub const CHANNELS_AT: usize = MASKS_AT + 1;

pub const DEALER_AT: usize = MASKS_AT + 2;

// How many words a record has.
pub const RECORD_WORDS: usize = MASKS_AT + 3;

// Whether words say a sound record, where they say one: looks at every word. An unsound record is a record too.
pub fn see(words: &[u64]) -> Option<bool>
    ensures { result ≡ seen_of (machine_of words.now) }
{
    if words.len() != RECORD_WORDS {
        return None;
    }
    let mut sound = true;
    for k in 0..REGISTERS {
        let at = REGISTER_WORDS * k;
        let register = read_register(&words[at..])?;
        sound &= register.is_sound();
    }
    let placed = (words[MASKS_AT] <= MILLION)
        & ((words[CHANNELS_AT] <= MILLION) & (words[DEALER_AT] <= MILLION));
    Some(sound & placed)
}

// Register k of a record, empty past the last. Below 16 the cast loses nothing: TryFrom would add a failure that never comes.
#[tactic(auto, using(crate::proofs::SaysLaw::says_length))]
pub fn register_at(words: &[u64], k: u64) -> Register
    requires { (m : Machine) × Says words.now m }
    ensures { (m : Machine) → Says words.now m → result ≡ register_at m k }
{
    if 15 < k {
        return Register::Empty;
    }
    let at = REGISTER_WORDS * (k as usize);
    read_register(&words[at..]).unwrap_or(Register::Empty)
}

// The positions of a record, risen. All three sums are made before one is written, so no loop goes over the three.
fn rise(gates: u64, sent: u64, items: u64, words: &mut [u64])
    requires long { length words.old ≡ 83 }
    requires masks { get_or words.old 80 0 + gates < 2 ^ 64 }
    requires channels { get_or words.old 81 0 + sent < 2 ^ 64 }
    requires dealer { get_or words.old 82 0 + items < 2 ^ 64 }
    ensures { (m : Machine) → Says words.old m → Says words.new (moved m gates sent items) }
{
    let a = words[MASKS_AT] + gates;
    let b = words[CHANNELS_AT] + sent;
    let c = words[DEALER_AT] + items;
    words[MASKS_AT] = a;
    words[CHANNELS_AT] = b;
    words[DEALER_AT] = c;
}

// The words of a record with a change. Its register's number is below 16, so the cast loses nothing.
fn write_made(k: Change, words: &mut [u64])
    requires { (m : Machine) × Says words.old m × Makes m k }
    ensures { (m : Machine) → Says words.old m → Makes m k → Says words.new (made k m) }
{
    match k {
        Change::Stored {
            d,
            register,
            gates,
            items,
        } => {
            let at = REGISTER_WORDS * (d as usize);
            write_register(register, &mut words[at..]);
            rise(gates, gates, items, words)
        }
        Change::Opened { value: _ } => rise(0, 1, 0, words),
    }
}

// The words of a record with what an order changes; a refused one changes nothing.
pub fn write_change(k: Result<Change, Refusal>, words: &mut [u64])
    requires { (m : Machine) × Says words.old m × Fits m k }
    ensures { (m : Machine) → Says words.old m → Fits m k → Says words.new (changed k m) }
{
    if let Ok(change) = k {
        write_made(change, words);
    }
}

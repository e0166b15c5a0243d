// What the arguments ask for.
ghost use Rattle.std.specs.Prelude.{◌≡◌, ◌≤◌, IfOk};
ghost use Rattle.drawing.specs.Asks.{asked_of, code_in, few_in, is_code, kind_of, number_in};
ghost use Rattle.line.specs.Lines.{number_of};

use crate::asked::{Asked, BadArgument};
use crate::kinds::Kind;
use line::Reading;
use tape::Items;

// A job takes at most this many lines of each tape kind.
const MOST_LINES: u64 = 512;

// The number of a text that was read as one field.
#[tactic(auto, unfolding(crate::specs::Asks::number_in))]
fn number_in(r: Reading) -> Option<u64>
    ensures { result ≡ number_in r }
{
    let fields = r.fields?;
    if fields.digits == 0 || fields.commas != 0 {
        return None;
    }
    Some(fields.value)
}

// The number of a text of 1 to 20 digits, below 2^64.
fn read_number(text: &[u8]) -> Option<u64>
    ensures { result ≡ number_of text.now }
{
    let mut reading = Reading::start();
    for b in text {
        reading = reading.byte(*b);
    }
    number_in(reading)
}

// Whether there are items for a ring code: a number still, which the first argument gives.
#[tactic(auto, unfolding(crate::specs::Asks::is_code))]
fn is_code(code: u64) -> bool
    ensures { result ≡ is_code code }
{
    Items::of_code(code).is_some()
}

// The first argument.
#[tactic(auto, unfolding(crate::specs::Asks::code_in))]
fn ring_code(text: &[u8]) -> Option<u64>
    ensures { result ≡ code_in (number_of text.now) }
{
    read_number(text).filter(|code| is_code(*code))
}

// The second.
#[tactic(auto, unfolding(crate::specs::Asks::few_in))]
fn few(text: &[u8]) -> Option<u64>
    ensures { result ≡ few_in (number_of text.now) }
{
    read_number(text).filter(|count| *count <= MOST_LINES)
}

// The third. No `TryFrom`: of bytes that are no kind there is nothing to say, and `ask` has the error.
#[tactic(auto, unfolding(crate::specs::Asks::kind_of))]
fn kind_of(text: &[u8]) -> Option<Kind>
    ensures { result ≡ kind_of text.now }
{
    if text == b"masks".as_slice() {
        return Some(Kind::Masks);
    }
    if text == b"dealer".as_slice() {
        return Some(Kind::Dealer);
    }
    None
}

// The three arguments.
#[tactic(auto, unfolding(crate::specs::Asks::asked_of))]
pub fn ask(ring: &[u8], count: &[u8], kind: &[u8]) -> Result<Asked, BadArgument>
    ensures is { result ≡ asked_of ring.now count.now kind.now }
    ensures few { IfOk result (λ a. a.count ≤ 512) }
{
    let code = ring_code(ring).ok_or(BadArgument::Ring)?;
    let count = few(count).ok_or(BadArgument::Count)?;
    let kind = kind_of(kind).ok_or(BadArgument::Kind)?;
    Ok(Asked { code, count, kind })
}

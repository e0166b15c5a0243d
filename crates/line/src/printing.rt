// The line that is printed for an order.
ghost use Rattle.std.specs.Prelude.{◌+◌, ◌≤◌, length};
ghost use Rattle.line.specs.Printed.{Wrote, field, printed};

use itoa::Buffer;

// Writes the decimal of n at `at`, with a byte after it, and answers the place after both: the slice is the caller's, as there is no heap.
pub fn put_field(out: &mut [u8], at: usize, n: u64, end: u8) -> usize
    requires { at + 21 ≤ length out.old }
    ensures writes { Wrote at (field n end) out.old out.new result }
    ensures short { result ≤ at + 21 }
{
    let mut buffer = Buffer::new();
    let digits = buffer.format(n).as_bytes();
    let stop = at + digits.len();
    out[at..stop].copy_from_slice(digits);
    out[stop] = end;
    stop + 1
}

// Writes the printed line at `at`, and answers the place after it. No other function takes these five
// numbers, so a struct of them would be made for its one call.
pub fn print_line(
    out: &mut [u8],
    at: usize,
    line: u64,
    refusal: u64,
    value: u64,
    masks_at: u64,
    channels_at: u64,
) -> usize
    requires { at + 105 ≤ length out.old }
    ensures writes { Wrote at (printed line refusal value masks_at channels_at) out.old out.new result }
    ensures short { result ≤ at + 105 }
{
    let a = put_field(out, at, line, b',');
    let b = put_field(out, a, refusal, b',');
    let c = put_field(out, b, value, b',');
    let d = put_field(out, c, masks_at, b',');
    put_field(out, d, channels_at, b'\n')
}

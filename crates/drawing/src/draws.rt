// Items drawn from raw bytes, printed as tape lines. The ring code stays a number, since a tape is prepared for one.
// What is written here and in lines.rt and raws.rt goes to slices that the caller lends: there is no heap.
ghost use Rattle.std.specs.Prelude.{◌≡◌, ◌*◌, ◌≤◌, IfOk, length};
ghost use Rattle.tape.specs.Tapes.{prepared};
ghost use Rattle.drawing.specs.Draws.{Drew, drawn, drawn_by};
ghost use Rattle.drawing.specs.Lines.{per_line};

use crate::kinds::Kind;
use crate::lines::{items_for, put_lines};
use crate::raws::raw_words;
use tape::{Refused, prepare};

// Of 65,536 bytes.
const MOST_WORDS: usize = 8192;

// Of 512 lines of the mask tapes.
const MOST_ITEMS: usize = 1536;

// n lines of the items that the raw words give for the whole run, and how many bytes they take.
fn draw_run(
    code: u64,
    n: usize,
    kind: Kind,
    words: &[u64],
    run: &mut [u64],
    out: &mut [u8],
) -> Result<usize, Refused>
    requires items { per_line kind * n ≡ length run.old }
    requires room { 84 * n ≤ length out.old }
    ensures lines { Drew (drawn_by kind n (prepared code words.now run.old)) out.old out.new result }
    ensures run { run.new ≡ (prepared code words.now run.old).run }
    ensures short { IfOk result (λ len. len ≤ 84 * n) }
{
    prepare(code, words, run)?;
    Ok(put_lines(kind, run, n, out))
}

// n lines of a kind for a ring code, from raw bytes: at most four fields of 21 bytes a line.
pub fn draw(code: u64, n: usize, kind: Kind, raw: &[u8], out: &mut [u8]) -> Result<usize, Refused>
    requires lines { n ≤ 512 }
    requires raw { length raw.now ≤ 65536 }
    requires room { 43008 ≤ length out.old }
    ensures lines { Drew (drawn code n kind raw.now) out.old out.new result }
    ensures short { IfOk result (λ len. len ≤ 43008) }
{
    // Arrays with a count beside them: a run to be prepared is lent as a slice, at its full length from the start.
    let mut words = [0; MOST_WORDS];
    let mut run = [0; MOST_ITEMS];
    let count = raw_words(raw, &mut words);
    let items = items_for(kind, n);
    draw_run(code, n, kind, &words[0..count], &mut run[0..items], out)
}

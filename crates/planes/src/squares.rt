// Squares of bits, a row a word, transposed by levels: blocks of h rows and columns change places, h being 1, 2, 4 and so on.
ghost use Rattle.std.specs.Prelude.{◌≡◌, ◌+◌, ◌*◌, ◌<◌, ◌≤◌, ◌^◌, length};
ghost use Rattle.planes.specs.Planes.{AllBelow};
ghost use Rattle.planes.specs.Squares.{BlocksTransposed, Exchanged, Levelled, Transposed};

// The pairs of rows of one block, h apart, exchanged in the columns of m. By index: rows taken as pairs from two chunks are no
// plainer, and the proof of that form did not close.
fn exchange(rows: &mut [u64], at: usize, h: usize, m: u64)
    requires width { h ≤ 32 }
    requires room { at + 2 * h ≤ length rows.old }
    ensures { Exchanged h m at h rows.old rows.new }
{
    for l in 0..h {
        let a = rows[at + l];
        let b = rows[at + h + l];
        let t = (a ^ (b << h)) & m;
        rows[at + l] = a ^ t;
        rows[at + h + l] = b ^ (t >> h);
    }
}

// n blocks of 2 h rows.
fn level(rows: &mut [u64], n: usize, h: usize, m: u64)
    requires width { h ≤ 32 }
    requires room { n * (2 * h) ≤ length rows.old }
    ensures { Levelled h m n rows.old rows.new }
{
    for q in 0..n {
        exchange(rows, q * (2 * h), h, m);
    }
}

// Squares of 32 rows and 32 columns, two side by side and n below each other, each transposed by itself.
pub fn transpose_halves(rows: &mut [u64], n: usize)
    requires count { n ≤ 2 }
    requires room { length rows.old ≡ n * 32 }
    ensures is { BlocksTransposed 32 (n * 32) rows.old rows.new }
    ensures words { AllBelow (2 ^ 64) rows.new }
{
    level(rows, n * 16, 1, 0xaaaaaaaaaaaaaaaa);
    level(rows, n * 8, 2, 0xcccccccccccccccc);
    level(rows, n * 4, 4, 0xf0f0f0f0f0f0f0f0);
    level(rows, n * 2, 8, 0xff00ff00ff00ff00);
    level(rows, n, 16, 0xffff0000ffff0000);
}

// Bit c of row r becomes bit r of row c. Rows as a slice: halves of 32 rows and squares of 64 go through the same levels.
pub fn transpose(rows: &mut [u64])
    requires { length rows.old ≡ 64 }
    ensures is { Transposed rows.old rows.new }
    ensures words { AllBelow (2 ^ 64) rows.new }
{
    transpose_halves(rows, 2);
    level(rows, 1, 32, 0xffffffff00000000);
}

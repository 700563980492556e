// The 16 by 16 bit matrix, rows for columns.
ghost use Rattle.std.specs.Prelude.{◌≡◌, ◌+◌, ◌-◌, ◌*◌, ◌%◌, ◌^◌, ◌≤◌, ◌<◌, length};
ghost use Rattle.std.specs.Int.Bits.{bit_and};
ghost use Rattle.problem.specs.Matrix.{Turned};
ghost use Rattle.problem.specs.Problem.{Words};
ghost use Rattle.problem.specs.Lists.{row_in};
ghost use Rattle.problem.specs.Loops.Matrices.{four, matrix_of, unlike, risen, sunk, by_one, by_two, within, by_four, by_eight, columns, difference, word_at, rows_of};

// 16 rows of 16 bits, four rows to a word.
#[derive(Clone, Copy)]
pub(crate) struct Matrix {
    first: u64,
    second: u64,
    third: u64,
    fourth: u64,
}

// The digits of a mask, to be exchanged with those so many places above.
#[derive(Clone, Copy)]
struct Exchange {
    mask: u64,
    places: usize,
    ghost few: { places < 64 },
}

impl Exchange {
    // The digits of the mask in which `a`, so many places above, differs from `b`.
    fn unlike(self, a: u64, b: u64) -> u64
        ensures { result ≡ unlike a b self.mask self.places }
    {
        ((a >> self.places) ^ b) & self.mask
    }

    // `a`, its digits above those of the mask taken from `b`.
    fn risen(self, a: u64, b: u64) -> u64
        ensures { result ≡ risen a b (2 ^ 64 - 1 - self.mask * 2 ^ self.places % 2 ^ 64) self.places }
    {
        a ^ (self.unlike(a, b) << self.places)
    }

    // `a`, its digits of the mask taken from `b`, from above.
    fn sunk(self, a: u64, b: u64) -> u64
        ensures { result ≡ sunk a b (2 ^ 64 - 1 - self.mask) self.places }
    {
        a ^ self.unlike(b, a)
    }

    // Both within a word.
    fn swapped(self, x: u64) -> u64
        requires { bit_and self.mask (self.mask * 2 ^ self.places % 2 ^ 64) ≡ 0 }
        ensures { result ≡ risen (sunk x x (2 ^ 64 - 1 - self.mask) self.places) x (2 ^ 64 - 1 - self.mask * 2 ^ self.places % 2 ^ 64) self.places }
    {
        let digits = self.unlike(x, x);
        (x ^ digits) ^ (digits << self.places)
    }
}

// Four rows, the digit of weight 1 of row and column exchanged.
fn by_one(x: u64) -> u64
    ensures { result ≡ by_one x }
{
    let exchange = Exchange {
        mask: 0x0000AAAA0000AAAA,
        places: 15,
    };
    exchange.swapped(x)
}

// That of weight 2.
fn by_two(x: u64) -> u64
    ensures { result ≡ by_two x }
{
    let exchange = Exchange {
        mask: 0x00000000CCCCCCCC,
        places: 30,
    };
    exchange.swapped(x)
}

// Both of these in all rows.
fn within(m: Matrix) -> Matrix
    ensures { result ≡ within m }
{
    Matrix {
        first: by_two(by_one(m.first)),
        second: by_two(by_one(m.second)),
        third: by_two(by_one(m.third)),
        fourth: by_two(by_one(m.fourth)),
    }
}

// That of weight 4, between words.
fn by_four(m: Matrix) -> Matrix
    ensures { result ≡ by_four m }
{
    let exchange = Exchange {
        mask: 0x0F0F0F0F0F0F0F0F,
        places: 4,
    };
    Matrix {
        first: exchange.risen(m.first, m.second),
        second: exchange.sunk(m.second, m.first),
        third: exchange.risen(m.third, m.fourth),
        fourth: exchange.sunk(m.fourth, m.third),
    }
}

// That of weight 8.
fn by_eight(m: Matrix) -> Matrix
    ensures { result ≡ by_eight m }
{
    let exchange = Exchange {
        mask: 0x00FF00FF00FF00FF,
        places: 8,
    };
    Matrix {
        first: exchange.risen(m.first, m.third),
        second: exchange.risen(m.second, m.fourth),
        third: exchange.sunk(m.third, m.first),
        fourth: exchange.sunk(m.fourth, m.second),
    }
}

// Rows for columns.
pub(crate) fn columns(m: Matrix) -> Matrix
    ensures { result ≡ columns m }
{
    by_eight(by_four(within(m)))
}

// The bits in which two differ, all rows together.
pub(crate) fn difference(m: Matrix, o: Matrix) -> u64
    ensures { result ≡ difference m o }
{
    ((m.first ^ o.first) | (m.second ^ o.second)) | ((m.third ^ o.third) | (m.fourth ^ o.fourth))
}

// Four rows in a word, from row `k` on.
fn four(rows: &[u16], k: usize) -> u64
    requires { k + 4 ≤ length rows.now }
    ensures { (result ≡ four (row_in rows.now) k) × Words rows.now }
{
    u64::from(rows[k])
        + u64::from(rows[k + 1]) * 65536
        + u64::from(rows[k + 2]) * 4294967296
        + u64::from(rows[k + 3]) * 281474976710656
}

// 16 rows.
pub(crate) fn matrix_of(rows: &[u16]) -> Matrix
    requires { length rows.now ≡ 16 }
    ensures { (result ≡ matrix_of (row_in rows.now)) × Words rows.now }
{
    Matrix {
        first: four(rows, 0),
        second: four(rows, 4),
        third: four(rows, 8),
        fourth: four(rows, 12),
    }
}

// 16 digits of a word, from this place on.
fn word_at(x: u64, places: usize) -> u16
    requires { places < 64 }
    ensures { result ≡ word_at x places }
{
    ((x >> places) % 65536) as u16
}

// The 16 rows.
fn rows_of(m: Matrix) -> [u16; 16]
    ensures { result ≡ rows_of m }
{
    [
        word_at(m.first, 0),
        word_at(m.first, 16),
        word_at(m.first, 32),
        word_at(m.first, 48),
        word_at(m.second, 0),
        word_at(m.second, 16),
        word_at(m.second, 32),
        word_at(m.second, 48),
        word_at(m.third, 0),
        word_at(m.third, 16),
        word_at(m.third, 32),
        word_at(m.third, 48),
        word_at(m.fourth, 0),
        word_at(m.fourth, 16),
        word_at(m.fourth, 32),
        word_at(m.fourth, 48),
    ]
}

// Bit b of word a is bit a of word b of the rows.
pub fn turned(rows: [u16; 16]) -> [u16; 16]
    ensures { Turned rows result }
{
    rows_of(columns(matrix_of(&rows)))
}

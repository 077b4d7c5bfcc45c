// Columns of 11 bytes: spaces, then a number, right-justified.
ghost use Rattle.std.specs.Prelude.{◌≡◌, drop, set};
ghost use Rattle.std.specs.List.{fold};
ghost use Rattle.std.proofs.lemmas.List.Edits.{sets};
ghost use Rattle.listing.specs.Column.{first, more, step, read_column, column_number, padding, write_column};

// What the bytes of a column say so far: nothing but spaces, a number, or no column. Three cases, so no Option.
#[derive(Drop)]
pub enum Column {
    Blank,
    Number(u32),
    Bad,
}

impl Column {
    // The number, if it is one.
    #[tactic(auto, unfolding(crate::specs::Column::column_number))]
    pub fn number(self) -> Option<u32>
        ensures { result ≡ column_number self }
    {
        match self {
            Column::Number(x) => Some(x),
            Column::Blank | Column::Bad => None,
        }
    }
}

pub const COLUMN_BYTES: usize = 11;

const SPACE: u8 = b' ';

const DIGIT_ZERO: u8 = b'0';

// A byte after spaces alone.
#[tactic(auto, unfolding(crate::specs::Column::first))]
fn first(b: u8) -> Column
    ensures { result ≡ first b }
{
    match b {
        SPACE => Column::Blank,
        b'0'..=b'9' => Column::Number((b - DIGIT_ZERO) as u32),
        _ => Column::Bad,
    }
}

// A byte after the number x.
#[tactic(auto, unfolding(crate::specs::Column::more))]
fn more(x: u32, b: u8) -> Column
    ensures { result ≡ more x b }
{
    if !b.is_ascii_digit() || x == 0 {
        return Column::Bad;
    }
    let digit = (b - DIGIT_ZERO) as u32;
    match x.checked_mul(10).and_then(|tens| tens.checked_add(digit)) {
        Some(y) => Column::Number(y),
        None => Column::Bad,
    }
}

// The column so far, and one byte more.
#[tactic(auto, unfolding(crate::specs::Column::step))]
fn step(c: Column, b: u8) -> Column
    ensures { result ≡ step c b }
{
    match c {
        Column::Blank => first(b),
        Column::Number(x) => more(x, b),
        Column::Bad => Column::Bad,
    }
}

// What bytes say, one after the other.
fn said(bytes: &[u8]) -> Column
    ensures { result ≡ fold step Column.Blank bytes.now }
{
    bytes.iter().fold(Column::Blank, |c, b| step(c, *b))
}

// The column at `at`; past the end of the text there is none. A column has 11 bytes, spaces among them: the library's `parse` takes a `&str` of any
// width.
#[tactic(auto, using(crate::proofs::Columns::column_short, crate::proofs::Columns::column_folded, std::proofs::lemmas::Slice::between_to_end))]
pub fn read_column(s: &[u8], at: usize) -> Column
    ensures { result ≡ read_column (drop at s.now) }
{
    let Some(rest) = s.get(at..) else {
        return Column::Bad;
    };
    let Some(column) = rest.first_chunk::<COLUMN_BYTES>() else {
        return Column::Bad;
    };
    said(column)
}

// Sets the byte at i to b; past the end nothing changes. By index: the contract of `get_mut` does not say what the slice holds afterwards.
pub fn put(s: &mut [u8], i: usize, b: u8)
    ensures { s.new ≡ set s.old i b }
{
    if i < s.len() {
        s[i] = b;
    }
}

// The last digit of what is left of a number, or a space where nothing is left.
#[tactic(auto, unfolding(crate::specs::Column::padding))]
fn padding(x: u32) -> u8
    ensures { result ≡ padding x }
{
    if 0 < x {
        DIGIT_ZERO + (x % 10) as u8
    } else {
        SPACE
    }
}

// Writes the column of x, the last digit first; bytes past the end are left out. The library prints a number to a `str`, which may have any width; a column is 11
// bytes of the slice that is lent, and there is no heap.
#[tactic(auto, using(words::proofs::Records::sets_out, crate::proofs::Columns::padded_more, crate::proofs::Columns::column_last), unfolding(crate::specs::Column::padded))]
pub fn write_column(s: &mut [u8], at: usize, x: u32)
    ensures { s.new ≡ sets s.old at (write_column x) }
{
    if at <= s.len() {
        put(s, at + (COLUMN_BYTES - 1), DIGIT_ZERO + (x % 10) as u8);
        let mut rest = x / 10;
        for k in (0..COLUMN_BYTES - 1).rev() {
            put(s, at + k, padding(rest));
            rest /= 10;
        }
    }
}

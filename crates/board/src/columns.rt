// Numbers, right-aligned in columns. Digits by hand: the kit's itoa has no columns, and takes 1.19 times as long in printing.
// Writers take the buffer and the place (writing/src/lib.rt says why).
ghost use Rattle.std.specs.Prelude.{◌≡◌, ◌∷◌, [], ◌+◌, ◌≤◌, length};
ghost use Rattle.printing.specs.Decimal.{last_digit};
ghost use Rattle.writing.specs.Writing.{Wrote};
ghost use Rattle.board.specs.Columns.{cell, cells};
ghost use Rattle.board.specs.Page.{number, aligned, after};

// Printing's own is private to it, since a public function asks for nothing.
pub(crate) fn put(out: &mut [u8], at: usize, byte: u8) -> usize
    requires { at + 1 ≤ length out.old }
    ensures { Wrote 1 out.old out.new at result (byte ∷ []) }
{
    out[at] = byte;
    at + 1
}

fn last_digit(n: u32) -> u8
    ensures { result ≡ last_digit n }
{
    b'0' + (n % 10) as u8
}

// The last digit of what is left of a number, a space where nothing is.
fn cell_of(left: u32) -> u8
    ensures { result ≡ cell left }
{
    if left == 0 {
        return b' ';
    }
    last_digit(left)
}

// So many columns of what is left of a number.
// Place and width stay two numbers: with &mut out[at..at + width] each caller would count its place on beside, by the same width.
fn put_cells(out: &mut [u8], at: usize, width: usize, left: u32) -> usize
    requires { at + width ≤ length out.old }
    ensures { Wrote width out.old out.new at result (cells width left) }
{
    if width == 0 {
        return at;
    }
    let a = put_cells(out, at, width - 1, left / 10);
    let byte = cell_of(left);
    put(out, a, byte)
}

// A number in so many columns.
pub(crate) fn put_number(out: &mut [u8], at: usize, width: usize, n: u32) -> usize
    requires { (1 ≤ width) × (at + width ≤ length out.old) }
    ensures { Wrote width out.old out.new at result (aligned (number width n)) }
{
    let a = put_cells(out, at, width - 1, n / 10);
    let byte = last_digit(n);
    put(out, a, byte)
}

// A space and a number in so many columns.
#[tactic(auto, using(writing::proofs::WritingLaws::then, writing::proofs::WritingLaws::widen))]
pub(crate) fn put_after(out: &mut [u8], at: usize, width: usize, n: u32) -> usize
    requires { (1 ≤ width) × (at + (width + 1) ≤ length out.old) }
    ensures { Wrote (width + 1) out.old out.new at result (after (number width n)) }
{
    let a = put(out, at, b' ');
    put_number(out, a, width, n)
}

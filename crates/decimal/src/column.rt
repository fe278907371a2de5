// Numbers right-aligned in columns. A column is laid from its last byte to its first, with one test a
// byte, so that it takes the same time whatever its number is.
ghost use Rattle.std.specs.Prelude.{◌≡◌, ◌+◌, ◌≤◌, length};
ghost use Rattle.overlay.specs.Overlay.{overlay};
ghost use Rattle.decimal.specs.Column.{column, front, Room};
ghost use Rattle.decimal.specs.Column.{mark as Column·mark};
ghost use Rattle.decimal.specs.Decimal.{decimal};
ghost use Rattle.decimal.specs.TextPut.{TextPut};

// The byte before the digits that are laid already: the last digit of what is left of the number,
// or a space where nothing is.
fn mark(rest: u32) -> u8
    ensures { result ≡ Column·mark rest }
{
    if rest == 0 {
        return b' ';
    }
    48 + (rest % 10) as u8
}

// Lays what stands before the last digit of a column: the digits that are left of the number, behind
// spaces.
fn put_front(out: &mut [u8], at: usize, width: usize, left: u32)
    requires room { at + width ≤ length out.old }
    requires wide { Room width left }
    ensures { out.new ≡ overlay out.old at (front width left) }
{
    let mut rest = left;
    for place in (at..at + width).rev() {
        out[place] = mark(rest);
        rest /= 10;
    }
}

// Lays n at the end of a column that is wide enough for it.
pub fn put_column(out: &mut [u8], at: usize, width: usize, n: u32) -> usize
    requires room { at + width ≤ length out.old }
    requires wide { length (decimal n) ≤ width }
    ensures { TextPut out.old out.new at result (column width n) }
{
    let last = width - 1;
    out[at + last] = 48 + (n % 10) as u8;
    put_front(out, at, last, n / 10);
    at + width
}

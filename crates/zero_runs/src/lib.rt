// Stretches of zeros: in a list of zeros every residual is looked at, and little else is done.
// Whole blocks are counted without an early end, which the machine does several residuals at once.

#![tactic(auto)]

ghost use Rattle.std.specs.Prelude.{◌≡◌, ◌+◌, ◌≤◌, leb, length, drop};
ghost use Rattle.word_bits.specs.Residuals.{zeros};
ghost use Rattle.word_bits.specs.View.{other_of, SkipIs};

// 1 for a residual other than 0, 0 for 0.
fn other(residual: i32) -> u32
    ensures { result ≡ other_of residual }
{
    u32::from(residual != 0)
}

// Whether the 32 residuals from `from` on are all 0.
fn all_zero(residuals: &[i32], from: usize) -> bool
    requires { from + 32 ≤ length residuals.now }
    ensures { result ≡ leb 32 (zeros (drop from residuals.now)) }
{
    let mut others: u32 = 0;
    for i in 0..32 {
        others += other(residuals[from + i]);
    }
    others == 0
}

// Past the blocks of zeros that start at `first`.
fn skip(residuals: &[i32], first: usize) -> usize
    requires { first ≤ length residuals.now }
    ensures { SkipIs residuals.now first result }
{
    let mut i = first;
    // Blocks of 32 from `first` on, until one holds another number: no `for`.
    while residuals.len() - i >= 32 {
        if !all_zero(residuals, i) {
            return i;
        }
        i += 32;
    }
    i
}

// The length of the unbroken stretch of zeros that starts at `first`.
pub fn zeros_from(residuals: &[i32], first: usize) -> usize
    requires { first ≤ length residuals.now }
    ensures { result ≡ zeros (drop first residuals.now) }
{
    let end = residuals.len();
    let start = skip(residuals, first);
    for i in start..end {
        if residuals[i] != 0 {
            return i - first;
        }
    }
    end - first
}

// Implements document 01, "Passes": what a pass is, how it is made from its seeds, and what its
// term stands for. The definitions of a step, a pass over a buffer and a list of passes stand in
// specs/, with their theorems in proofs/.

#![tactic(auto)]

ghost use Rattle.std.specs.Prelude.{◌≡◌, ◌<◌, ◌≤◌, pos, length, take, get_or};
ghost use Rattle.std.specs.Result.{result_unwrap_or};
ghost use Rattle.answers.specs.Numbers.{outcome_number};
ghost use Rattle.passes.specs.Terms.{term_of, is_valid, is_cross, is_lag};
ghost use Rattle.passes.specs.Making.{seed_count, ordered, padded, seed_length, no_pass, made};

use answers::Refusal;

// One pass: its term, the step of its weights, and for each channel the weight and the history.
#[derive(Clone, Copy)]
pub struct DecorrPass {
    pub term: i8,
    pub delta: i32,
    pub weight_a: i32,
    pub weight_b: i32,
    pub history_a: [i32; 8],
    pub history_b: [i32; 8],
}

// Which way passes are run.
#[derive(Clone, Copy)]
pub enum Direction {
    // Residuals to samples, the first pass first.
    Decorrelation,
    // Samples to residuals, the last pass first.
    Analysis,
}

// What a term's number stands for: a fixed lag of 1 to 8 frames, or one of the five others. An invalid
// one is a case of its own and no `None`, since the definition of a step (`rule_of`) has a rule for it.
#[derive(Clone, Copy)]
pub enum Term {
    Lag(usize),
    Seventeen,
    Eighteen,
    MinusOne,
    MinusTwo,
    MinusThree,
    Invalid,
}

// The term of a number.
pub fn term_of(term: i8) -> Term
    ensures { result ≡ term_of term }
{
    match term {
        -1 => Term::MinusOne,
        -2 => Term::MinusTwo,
        -3 => Term::MinusThree,
        17 => Term::Seventeen,
        18 => Term::Eighteen,
        1..=8 => Term::Lag(term as usize),
        _ => Term::Invalid,
    }
}

// Whether a term is one of the thirteen.
pub fn is_valid(t: Term) -> bool
    ensures { result ≡ is_valid t }
{
    !matches!(t, Term::Invalid)
}

// Whether a term predicts one channel from the other.
fn is_cross(t: Term) -> bool
    ensures { result ≡ is_cross t }
{
    matches!(t, Term::MinusOne | Term::MinusTwo | Term::MinusThree)
}

// Whether a term is a fixed lag.
fn is_lag(t: Term) -> bool
    ensures { result ≡ is_lag t }
{
    matches!(t, Term::Lag(_))
}

// How many seed samples a term takes for each channel.
fn seed_count(t: Term) -> usize
    ensures { result ≡ seed_count t }
{
    match t {
        Term::Lag(n) => n,
        Term::Seventeen | Term::Eighteen => 2,
        Term::MinusOne | Term::MinusTwo | Term::MinusThree => 1,
        Term::Invalid => 0,
    }
}

// Refuses a seed of `len` samples that has fewer than the `count` that its term takes (8); an empty
// one that is not needed has enough.
fn seed_length(needed: bool, count: usize, len: usize) -> Result<(), Refusal>
    ensures { result ≡ seed_length needed count len }
{
    if (needed || 0 < len) && len < count {
        return Err(Refusal::SeedTooShort);
    }
    Ok(())
}

// The history that a seed gives a term which takes `count` samples: zeros behind them.
fn seed_history(reversed: bool, count: usize, seed: &[i32]) -> [i32; 8]
    requires { count ≤ 8 }
    ensures { result ≡ padded (ordered reversed (take count seed.now)) }
{
    let taken = count.min(seed.len());
    let mut history = [0; 8];
    history[..taken].copy_from_slice(&seed[..taken]);
    if reversed {
        history[..taken].reverse();
    }
    history
}

impl DecorrPass {
    // What stands for a pass where there is none: all zero.
    pub const NONE: DecorrPass = DecorrPass {
        term: 0,
        delta: 0,
        weight_a: 0,
        weight_b: 0,
        history_a: [0; 8],
        history_b: [0; 8],
    };

    // A pass with its histories seeded. Refuses an invalid term (7), then an A seed and then a B
    // seed that is too short (8). Any weights and any delta are taken.
    pub fn new(
        term: i8,
        delta: i32,
        weight_a: i32,
        weight_b: i32,
        seed_a: &[i32],
        seed_b: &[i32],
    ) -> Result<DecorrPass, Refusal>
        ensures { record { refusal = outcome_number result; pass = result_unwrap_or result no_pass }
            ≡ made term delta weight_a weight_b seed_a.now seed_b.now }
    {
        let t = term_of(term);
        if !is_valid(t) {
            return Err(Refusal::InvalidTerm);
        }
        let count = seed_count(t);
        seed_length(false, count, seed_a.len())?;
        let paired = is_cross(t) && 0 < seed_a.len();
        seed_length(paired, count, seed_b.len())?;
        let reversed = is_lag(t);
        Ok(DecorrPass {
            term,
            delta,
            weight_a,
            weight_b,
            history_a: seed_history(reversed, count, seed_a),
            history_b: seed_history(reversed, count, seed_b),
        })
    }
}

// Implements document 01, "Why each operation says no": the tests of a list of passes.

#![tactic(auto)]

ghost use Rattle.std.specs.Prelude.{◌≡◌};
ghost use Rattle.answers.specs.Numbers.{outcome_number};
ghost use Rattle.list_tests.specs.Tests.{valid_pass, all_valid, list_number};

use answers::Refusal;
use answers::limits::{MAX_ELEMENTS, MAX_PASSES};
use passes::DecorrPass;

// Whether the term of a pass is valid.
pub fn valid_pass(p: DecorrPass) -> bool
    ensures { result ≡ valid_pass p }
{
    passes::is_valid(passes::term_of(p.term))
}

// What decorrelation and analysis say of a list, by whether its terms are valid, its passes and the
// buffer's elements.
#[tactic(auto, unfolding(crate::specs::Tests::list_number))]
pub fn list_outcome(valid: bool, count: usize, elements: usize) -> Result<(), Refusal>
    ensures { outcome_number result ≡ list_number valid count elements }
{
    if MAX_ELEMENTS < elements {
        return Err(Refusal::TooLarge);
    }
    if MAX_PASSES < count {
        return Err(Refusal::TooManyPasses);
    }
    if !valid {
        return Err(Refusal::InvalidTerm);
    }
    Ok(())
}

// Whether all terms of a list are valid.
pub fn all_valid(passes: &[DecorrPass]) -> bool
    ensures { result ≡ all_valid passes.now }
{
    passes.iter().all(|p| valid_pass(*p))
}

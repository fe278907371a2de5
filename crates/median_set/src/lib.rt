// Implements document 01, "Entropy": one set of medians. Log words are expanded in one place,
// `read_median_set`, which passes on their refusal.

#![tactic(auto)]

ghost use Rattle.std.specs.Prelude.{◌≡◌, ◌≤◌, length};
ghost use Rattle.answers.specs.Numbers.{outcome_number};
ghost use Rattle.entropy.specs.Sets.{set_refusal, set_told};

use entropy::SetAnswer;

// Three log words, from the first six bytes. Refuses with 17 where one of them is out of reach.
pub fn read_median_set(set: &[u8]) -> SetAnswer
    requires { 6 ≤ length set.now }
    ensures outcome { outcome_number result.outcome ≡ set_refusal set.now }
    ensures medians { result.medians ≡ set_told set.now }
{
    let first = logpack::expand_log_word(set[0], set[1]);
    let second = logpack::expand_log_word(set[2], set[3]);
    let third = logpack::expand_log_word(set[4], set[5]);
    SetAnswer {
        outcome: first.and(second).and(third).and(Ok(())),
        medians: [first.unwrap_or(0), second.unwrap_or(0), third.unwrap_or(0)],
    }
}

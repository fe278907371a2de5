// Implements document 01, "One word", adaptation.
ghost use Rattle.std.specs.Prelude.{◌≡◌, ◌≤◌};
ghost use Rattle.entropy.specs.Medians.{medians_of};
ghost use Rattle.medians.specs.Adaptation.{hold, up, down, adapt};

use entropy::AdaptiveMedians;

// A number held within 32 bits.
fn held(x: u64) -> u32
    ensures { result ≡ hold x }
{
    x.min(u64::from(u32::MAX)) as u32
}

// A median moved up, `divisor` being its d.
#[tactic(auto, using(crate::proofs::AdaptationLaws::up_is))]
pub fn inc_median(median: u32, divisor: u32) -> u32
    requires { 32 ≤ divisor }
    ensures { result ≡ up divisor median }
{
    let step = held(u64::from(median) + u64::from(divisor)) / divisor * 5;
    held(u64::from(median) + u64::from(step))
}

// A median moved down, `divisor` being its d.
#[tactic(auto, using(crate::proofs::AdaptationLaws::down_is))]
pub fn dec_median(median: u32, divisor: u32) -> u32
    requires { 32 ≤ divisor }
    ensures { result ≡ down divisor median }
{
    let step = held(u64::from(median) + u64::from(divisor - 2)) / divisor * 2;
    median - step
}

// The medians after a word of the count `ones_count`. Refuses nothing.
#[tactic(auto, using(crate::proofs::AdaptationLaws::adapt_many), unfolding(crate::specs::Adaptation::adapt))]
pub fn adapt(medians: AdaptiveMedians, ones_count: u32) -> AdaptiveMedians
    ensures { medians_of result ≡ adapt (medians_of medians) ones_count }
{
    let [first, second, third] = medians.values;
    let values = match ones_count {
        0 => [dec_median(first, 128), second, third],
        1 => [inc_median(first, 128), dec_median(second, 64), third],
        2 => [
            inc_median(first, 128),
            inc_median(second, 64),
            dec_median(third, 32),
        ],
        _ => [
            inc_median(first, 128),
            inc_median(second, 64),
            inc_median(third, 32),
        ],
    };
    AdaptiveMedians { values }
}

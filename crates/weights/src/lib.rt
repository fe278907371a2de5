// Implements document 01, "Passes": the prediction, the sample or residual that goes with it, and
// the two weight updates.
//
// No update branches on a sign. Whether a weight grows or falls is as good as random, so a branch
// on it costs more than working out both outcomes and picking one: `by_sign` is the only test of a
// sign, and its arms hold names alone. The number that is ready last is tested last: the source in
// decorrelation, the residual in analysis.

#![tactic(auto)]

ghost use Rattle.std.specs.Prelude.{◌≡◌};
ghost use Rattle.weights.specs.Weights.{predict, sample, residual, source17, source18, at_most1024, Way, way_of, moved_clip, updated, updated_clip};
ghost use Rattle.weights.specs.Sign.{by_sign, chosen};

// The prediction from a source.
pub fn apply_weight(weight: i32, source: i32) -> i32
    ensures { result ≡ predict weight source }
{
    let product = i64::from(weight) * i64::from(source) + 512;
    wrapping::narrow(product >> 10)
}

// The sample that a residual stands for.
pub fn sample_of(weight: i32, source: i32, res: i32) -> i32
    ensures { result ≡ sample weight source res }
{
    apply_weight(weight, source).wrapping_add(res)
}

// The residual that stands for a sample.
pub fn residual_of(weight: i32, source: i32, x: i32) -> i32
    ensures { result ≡ residual weight source x }
{
    x.wrapping_sub(apply_weight(weight, source))
}

// The source of term 17, from the last sample and the one before it.
pub fn source_17(last: i32, before: i32) -> i32
    ensures { result ≡ source17 last before }
{
    last.wrapping_mul(2).wrapping_sub(before)
}

// The source of term 18, from the last sample and the one before it.
pub fn source_18(last: i32, before: i32) -> i32
    ensures { result ≡ source18 last before }
{
    last.wrapping_mul(3).wrapping_sub(before) >> 1
}

// `up` where x is above 0, `down` where it is below, else `still`.
fn by_sign(x: i64, up: i32, down: i32, still: i32) -> i32
    ensures { result ≡ by_sign x up down still }
{
    if x > 0 {
        up
    } else if x < 0 {
        down
    } else {
        still
    }
}

// `up` where the signs of x and y agree, `down` where they differ, `still` where one is 0: by the
// sign of the product.
fn by_product(x: i32, y: i32, up: i32, down: i32, still: i32) -> i32
    ensures { result ≡ chosen (way_of x y) up down still }
{
    by_sign(i64::from(x) * i64::from(y), up, down, still)
}

// The same by one sign after the other.
fn by_both(late: i32, early: i32, up: i32, down: i32, still: i32) -> i32
    ensures { result ≡ chosen (way_of late early) up down still }
{
    let agree = by_sign(i64::from(early), up, down, still);
    let differ = by_sign(i64::from(early), down, up, still);
    by_sign(i64::from(late), agree, differ, still)
}

// The weight after a step of a term that does not clip; source and residual in either order.
pub fn update_weight(weight: i32, delta: i32, late: i32, early: i32) -> i32
    ensures { result ≡ updated weight delta late early }
{
    let by_early = by_sign(i64::from(early), delta, delta.wrapping_neg(), 0);
    let by_late = by_sign(i64::from(late), by_early, by_early.wrapping_neg(), 0);
    weight.wrapping_add(by_late)
}

// x, and 1024 where x is above it.
fn at_most_1024(x: i32) -> i32
    ensures { result ≡ at_most1024 x }
{
    x.min(1024)
}

// A cross weight that grows.
fn up_clip(weight: i32, delta: i32) -> i32
    ensures { result ≡ moved_clip Way.up weight delta }
{
    at_most_1024(weight.wrapping_add(delta))
}

// A cross weight that falls.
fn down_clip(weight: i32, delta: i32) -> i32
    ensures { result ≡ moved_clip Way.down weight delta }
{
    at_most_1024(delta.wrapping_sub(weight)).wrapping_neg()
}

// The weight after a step of a cross term, where the source is ready last.
pub fn update_weight_clip(weight: i32, delta: i32, source: i32, res: i32) -> i32
    ensures { result ≡ updated_clip weight delta source res }
{
    by_product(
        source,
        res,
        up_clip(weight, delta),
        down_clip(weight, delta),
        weight,
    )
}

// The same where `late`, source or residual, is ready last. A function of its own for speed: each of the
// two tests last what is ready last.
pub fn update_weight_clip_late(weight: i32, delta: i32, late: i32, early: i32) -> i32
    ensures { result ≡ updated_clip weight delta late early }
{
    by_both(
        late,
        early,
        up_clip(weight, delta),
        down_clip(weight, delta),
        weight,
    )
}

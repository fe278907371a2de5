// The passes of a stored block, 36 bytes each.
use answers::Refusal;
use logpack::wp_exp2s;
use pass_bytes::{decode_term_byte, expand_weight_byte};
use passes::DecorrPass;
use std::io::Read;
use test_support::numbers::Stored;

// The values of eight log words; 0 for one that is out of reach.
fn read_seeds<R: Read>(file: &mut R) -> [i32; 8] {
    let mut seeds = [0i32; 8];
    for place in seeds.iter_mut() {
        *place = wp_exp2s(i16::read_from(file)).unwrap_or(0);
    }
    seeds
}

// The next pass: the term byte, both weight bytes, how many seeds a channel has, and eight log words
// a channel.
fn read_pass<R: Read>(file: &mut R) -> Result<DecorrPass, Refusal> {
    let term = decode_term_byte(u8::read_from(file));
    let weight_a = expand_weight_byte(u8::read_from(file));
    let weight_b = expand_weight_byte(u8::read_from(file));
    let count = usize::from(u8::read_from(file) % 9);
    let seed_a = read_seeds(file);
    let seed_b = read_seeds(file);
    DecorrPass::new(
        term.term,
        term.delta,
        weight_a,
        weight_b,
        &seed_a[..count],
        &seed_b[..count],
    )
}

// Reads the passes of a block, the first one first, with passes that run no step behind them. None
// for more than 16, or where pass making refuses one.
pub fn read_passes<R: Read>(file: &mut R, count: usize) -> Option<[DecorrPass; 16]> {
    let mut list = [DecorrPass::NONE; 16];
    let mut complete = count <= list.len();
    for place in list.iter_mut().take(count) {
        let made = read_pass(file);
        complete &= made.is_ok();
        *place = made.unwrap_or(DecorrPass::NONE);
    }
    if complete { Some(list) } else { None }
}

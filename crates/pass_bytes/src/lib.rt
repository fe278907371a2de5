// Implements document 01, "Passes": the term byte and the weight byte.

#![tactic(auto)]

ghost use Rattle.std.specs.Prelude.{◌≡◌};
ghost use Rattle.pass_bytes.specs.PassBytes.{term_of_byte, delta_of_byte, weight_of_byte};

// What a term byte holds.
#[derive(Clone, Copy)]
pub struct TermDelta {
    pub term: i8,
    pub delta: i32,
}

// The term and the delta of a term byte. The term may be an invalid one: pass making tests it.
pub fn decode_term_byte(byte: u8) -> TermDelta
    ensures { result ≡ record { term = term_of_byte byte; delta = delta_of_byte byte } }
{
    TermDelta {
        term: (byte % 32) as i8 - 5,
        delta: i32::from(byte / 32),
    }
}

// The weight that a weight byte stands for, -1024 to 1024.
pub fn expand_weight_byte(byte: u8) -> i32
    ensures { result ≡ weight_of_byte byte }
{
    if byte < 128 {
        let n = u32::from(byte) * 8;
        (n + (n + 64) / 128) as i32
    } else {
        let n = (256 - u32::from(byte)) * 8;
        -(n as i32)
    }
}

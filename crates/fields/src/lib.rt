// The fields of a word, as document 01 has them: run length, prefix and the code inside an interval,
// as "One word" reads them and as "Packing" writes them: the definitions in specs/ and their laws in
// proofs/, bits gathered to be laid, and the one number that readers and writers both work out. The
// fields are read and written in `count_reading`, `code_reading` and `field_writing`.

#![tactic(auto)]

ghost use Rattle.std.specs.Prelude.{◌≡◌};
ghost use Rattle.fields.specs.Code.{bit_length};

// Bits as a number, low bit first, and how many they are.
#[derive(Clone, Copy)]
pub struct Gathered {
    pub value: u64,
    pub count: usize,
}

// The bit length of a number, 0 for 0.
#[tactic(auto, unfolding(crate::specs::Code::bit_length))]
pub fn bit_length(number: u32) -> u32
    ensures { result ≡ bit_length number }
{
    32 - number.leading_zeros()
}

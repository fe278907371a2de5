// The bits of a byte list, as document 01 has them ("Reading": the lowest bit of each byte first,
// numbers low bit first; "Packing": bits laid into a buffer): the definitions in specs/ and their
// laws in proofs/. Reading a field finds its value and the place after it, or nothing where a bit is
// missing. The code over them stands in the crates after it: `bit_windows`, `bit_reading`,
// `unary_reading` and `bit_laying` are the core, for payloads within document 01's limit;
// `checked_bits` takes any slice and any place.

#![tactic(auto)]

// The C interface of the decoder and writer as a library, which `wavpack_stereo_c` exports. Each
// function is one call of a function with the same contract in a crate of slots, whose `Result` it
// answers as a refusal number, 0 for accepted. Values are laid into the first slots of a lent list;
// one that has fewer slots is refused with 6, and then nothing is written. Only the passes of a list
// are copied, into an array of 16.

#![tactic(auto)]

pub mod archives;
pub mod pack;
pub mod pages;
pub mod pass_lists;
pub mod reading;
pub mod values;
pub mod waves;
pub mod wide;

pub use crate::archives::{wv_archive_read, wv_archive_write};
pub use crate::pack::wv_pack;
pub use crate::pages::wv_morning_page;
pub use crate::pass_lists::{wv_analyse, wv_decorrelate, wv_pass};
pub use crate::reading::{wv_read, wv_word};
pub use crate::values::{wv_entropy, wv_log_word, wv_term_byte, wv_weight_byte};
pub use crate::waves::{wv_wave_export, wv_wave_import};
pub use crate::wide::{wv_deconstruct_int32, wv_reassemble_int32};

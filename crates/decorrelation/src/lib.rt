// Implements document 01, "Passes": decorrelation and analysis by a list of passes, lent or held in
// an array.

#![tactic(auto)]

mod arrays;
mod lists;

pub use crate::arrays::{analysis_refusal, array_answer, decorrelate_array, recorrelate_array};
pub use crate::lists::{decorrelate_stereo, recorrelate_stereo};

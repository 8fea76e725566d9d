//! Texts as bytes: what stands before and behind a separator, and words.
#![tactic(auto)]

mod cuts;
mod words;

pub use cuts::cut;
pub use words::{word_count, word_of};

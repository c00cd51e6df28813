//! What tables of cases are written in: words of a line, texts and names as words, and why a line
//! has no answer.
#![tactic(auto)]

pub mod case_error;
pub mod hex_word;
pub mod lines;
pub mod names;
pub mod words;

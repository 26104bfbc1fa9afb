// Texts: their bytes as tokens, the grammar, and a table of names.
#![tactic(auto)]

pub mod arguments;
mod classes;
pub mod grammar;
pub mod names;
pub mod readable;
pub mod start;
pub mod tokens;
pub mod walk;

// Uses of names in the clauses of a text (document 02, U1): by a table of its declarations, or where there are more than a table holds.
#![tactic(auto)]

mod arities;
pub mod batch;
mod brackets;
pub mod checking;
mod gathering;
mod lookup;
mod walk;

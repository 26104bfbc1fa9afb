// Unification, which document 01 calls matching, on flat cells. Terms stand in prefix notation in
// one slice of cells: a cell below 32768 is a symbol, followed by as many terms as its arity, and
// 32768 + v is the variable v. Cells stay words of the deck's format, and the test against 32768 is
// shorter than `match Cell::from(c) { Cell::Symbol(f) => .. }`. No term is copied.
//
// Between unifications no variable is bound and every stamp is 0. `undo` makes them so again from the
// trail, so that no unification costs what the table is long.
#![tactic(auto)]

pub mod bindings; // the table of bindings, following them, and taking them back
pub mod cells; // terms as cells
mod occurs; // the occurs check: document 01's test that a term contains a variable
pub mod unify; // the equations

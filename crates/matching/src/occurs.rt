// The occurs check, document 01's test that a term contains a variable: the terms are taken as they
// are after the replacements. A bound variable whose term was walked and does not contain it is
// stamped with one more than the number of bindings and not walked again, so that shared terms are
// walked once. A stamp is a number and no `Option`: 0 is none, and a test's own stamp is never 0.
ghost use Rattle.std.specs.Prelude.{◌≡◌, true, ◌-◌, ◌≤◌, ◌<◌, length, get_or};
ghost use Rattle.rules.specs.Terms.{occ, occs, count};
ghost use Rattle.matching.specs.Cells.{from};
ghost use Rattle.matching.specs.Bindings.{value, seen, Checking, Occurs, stamped};
ghost use Rattle.matching.specs.Tables.{Same};

use super::bindings::{Bound, Table};
use super::cells::{FlatTerms, VARIABLE};

// Whether the cell is a variable with that stamp.
fn is_stamped(table: &Table, stamp: usize, cell: u16) -> bool
    requires { 32768 ≤ cell → cell - 32768 < length table.now.stamps }
    ensures { result ≡ true → (32768 ≤ cell) × (get_or table.now.stamps (cell - 32768) 0 ≡ stamp) }
{
    VARIABLE <= cell && usize::from(table.stamps[usize::from(cell - VARIABLE)]) == stamp
}

// Gives the cell's variable the stamp, if it is one. The stamp fits, so `try_from` would give an error that cannot come.
fn set_stamp(table: &mut Table, stamp: usize, cell: u16)
    requires variable_in_bounds { 32768 ≤ cell → cell - 32768 < length table.old.stamps }
    requires stamp_bound { stamp < 65536 }
    ensures table_after { table.new.stamps ≡ stamped table.old.stamps stamp cell }
    ensures bindings_kept { Same table.old table.new }
{
    if VARIABLE <= cell {
        table.stamps[usize::from(cell - VARIABLE)] = stamp as u16;
    }
}

// Whether the variable v occurs in the term at p.
#[cycle(occurs_occurs_any)]
pub fn occurs(terms: &FlatTerms, table: &mut Table, v: u16, p: usize) -> bool
    requires checking { Checking terms.now.symbols.now terms.now.cells.now table.old.bind table.old.trail table.old.bound v table.old.stamps }
    requires p_in_bounds { p < length terms.now.cells.now }
    ensures occurs { Occurs (occ v (value terms.now.symbols.now terms.now.cells.now table.old.bind table.old.trail table.old.bound p)) result }
    ensures checking_after { Checking terms.now.symbols.now terms.now.cells.now table.old.bind table.old.trail table.old.bound v table.new.stamps }
    ensures bindings_kept { Same table.old table.new }
{
    let bound = Bound {
        terms: *terms,
        table,
    };
    let at = bound.resolve(p);
    let c = terms.cells[at];
    if VARIABLE <= c {
        return c - VARIABLE == v;
    }
    let stamp = table.bound + 1;
    if is_stamped(table, stamp, terms.cells[p]) {
        return false;
    }
    let arity = terms.arity(at);
    if occurs_any(terms, table, v, at + 1, arity) {
        return true;
    }
    set_stamp(table, stamp, terms.cells[p]);
    false
}

// Whether the variable v occurs in one of the `number` terms at p. A recursion over the terms that are left, and no `for`: each place is found
// from the term before it.
#[cycle(occurs_occurs_any)]
fn occurs_any(terms: &FlatTerms, table: &mut Table, v: u16, p: usize, number: usize) -> bool
    requires checking { Checking terms.now.symbols.now terms.now.cells.now table.old.bind table.old.trail table.old.bound v table.old.stamps }
    requires number_bound { number ≤ count (from terms.now.symbols.now terms.now.cells.now p) }
    ensures occurs { Occurs (occs v (seen terms.now.symbols.now terms.now.cells.now table.old.bind table.old.trail table.old.bound p number)) result }
    ensures checking_after { Checking terms.now.symbols.now terms.now.cells.now table.old.bind table.old.trail table.old.bound v table.new.stamps }
    ensures bindings_kept { Same table.old table.new }
{
    if number == 0 {
        return false;
    }
    if occurs(terms, table, v, p) {
        return true;
    }
    let next = terms.after_first(p, number);
    occurs_any(terms, table, v, next, number - 1)
}

// Writing terms as they are after a matching, with new variable numbers in order of first appearance.
ghost use Rattle.std.specs.Prelude.{◌≡◌, ◌+◌, ◌≤◌, ◌<◌, length, Ok};
ghost use Rattle.rules.specs.Terms.{var, nil, cons};
ghost use Rattle.resolvents.specs.Naming.{Named, Wrote, first_by, all_by, alone_by};

use matching::bindings::Bound;
use matching::cells::VARIABLE;

// The words of the goal that is written; the number of each of 1,280 variables, if it has one; and the variables that have a number, in order:
// the first `named` entries. The place that is written next goes through the methods and is no field: once the terms do not fit there is none,
// and as a result it stands in `Ok` alone.
#[derive(Drop)]
pub struct Draft {
    pub child: [u16; 1024],
    pub names: [Option<u16>; 1280],
    // The kit's `ArrayVec` has the same two fields as `order` and `named`: a crate more, for one push.
    pub order: [u16; 1280],
    pub named: usize,
    ghost numbered: { Named names order named },
}

// The terms do not fit.
#[derive(Clone, Copy, Debug, PartialEq, Eq)]
pub struct Full;

impl Draft {
    // No variable has a number.
    pub fn new() -> Self
        ensures { result.named ≡ 0 }
    {
        Draft {
            child: [0; 1024],
            names: [None; 1280],
            order: [0; 1280],
            named: 0,
        }
    }

    // Writes the variable v, with the next number if it has none. The number fits, so `try_from` would give an error that cannot come.
    fn put_variable(&mut self, v: u16, to: usize)
        requires v_in_bounds { v < length self.old.names }
        requires to_in_bounds { to < length self.old.child }
        ensures { Wrote self.old.child self.old.order to self.old.named (cons (var v) nil) self.new.child self.new.names self.new.order self.new.named (Ok (to + 1)) }
    {
        if let Some(number) = self.names[usize::from(v)] {
            self.child[to] = VARIABLE + number;
            return;
        }
        let number = self.named as u16;
        self.names[usize::from(v)] = Some(number);
        self.order[self.named] = v;
        self.child[to] = VARIABLE + number;
        self.named += 1;
    }

    // Writes the first `number` of the terms that the cells from p up to `end` hold, as they are after the replacements, from `to` on. The
    // terms are walked cell by cell, with `todo` terms still to come; only a variable that was replaced is entered. The result is the place
    // after them. `todo` is counted down in place: what `checked_sub` gives would have to be put back in both cases.
    #[cycle(put_terms_put_value)]
    pub fn put_terms(
        &mut self,
        bound: &Bound,
        p: usize,
        end: usize,
        number: usize,
        to: usize,
    ) -> Result<usize, Full>
        requires inside { end ≤ length bound.now.terms.cells.now }
        requires number_bound { (number < 65536) × (to ≤ 1024) }
        ensures { Wrote self.old.child self.old.order to self.old.named (first_by bound.now p end number) self.new.child self.new.names self.new.order self.new.named result }
    {
        let mut todo = number;
        let mut at = to;
        for i in p..end {
            if todo == 0 {
                return Ok(at);
            }
            if 1024 <= at {
                return Err(Full);
            }
            todo -= 1;
            let c = bound.terms.cells[i];
            if c < VARIABLE {
                todo += bound.terms.arity(i);
                self.child[at] = c;
                at += 1;
            } else {
                at = self.put_value(bound, i, at)?;
            }
        }
        Ok(at)
    }

    // Writes the term at p as it is after the replacements.
    #[cycle(put_terms_put_value)]
    fn put_value(&mut self, bound: &Bound, p: usize, to: usize) -> Result<usize, Full>
        requires inside { p < length bound.now.terms.cells.now }
        requires to_bound { to < 1024 }
        ensures { Wrote self.old.child self.old.order to self.old.named (alone_by bound.now p) self.new.child self.new.names self.new.order self.new.named result }
    {
        let q = bound.resolve(p);
        let c = bound.terms.cells[q];
        if VARIABLE <= c {
            self.put_variable(c - VARIABLE, to);
            return Ok(to + 1);
        }
        let arity = bound.terms.arity(q);
        self.child[to] = c;
        self.put_terms(bound, q + 1, bound.terms.cells.len(), arity, to + 1)
    }

    // Writes all the terms that the cells from p up to `end` hold.
    pub fn put_range(
        &mut self,
        bound: &Bound,
        p: usize,
        end: usize,
        to: usize,
    ) -> Result<usize, Full>
        requires inside { end ≤ length bound.now.terms.cells.now }
        requires p_le_end { (p ≤ end) × (to ≤ 1024) }
        ensures { Wrote self.old.child self.old.order to self.old.named (all_by bound.now p end) self.new.child self.new.names self.new.order self.new.named result }
    {
        self.put_terms(bound, p, end, end - p, to)
    }

    // Takes the numbers back from the variables that have one.
    pub fn forget(&mut self)
        ensures none_named { self.new.named ≡ 0 }
        ensures child_unchanged { self.new.child ≡ self.old.child }
    {
        for &v in self.order[..self.named].iter().rev() {
            self.names[usize::from(v)] = None;
        }
        self.named = 0;
    }
}

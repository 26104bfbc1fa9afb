// A term without variables, as its cells.
ghost use Rattle.std.specs.Prelude.{◌≤◌, ◌≡◌, length};

// A term of at most 8 cells: the first `size` of them. The kit's `ArrayVec` has the same two fields: a crate more, for no push.
#[derive(Clone, Copy)]
pub struct Term {
    pub cells: [u16; 8],
    pub size: usize,
    pub ghost wide: { length cells ≡ 8 },
    pub ghost sized: { (1 ≤ size) × (size ≤ 8) },
}

impl Term {
    ghost use Rattle.drill.specs.Holding.{term_cells};

    // The term of these cells.
    pub fn new(given: &[u16]) -> Term
        requires { (1 ≤ length given.now) × (length given.now ≤ 8) }
        ensures { term_cells result ≡ given.now }
    {
        let size = given.len();
        let mut cells = [0; 8];
        cells[..size].copy_from_slice(given);
        Term { cells, size }
    }

    // Its cells.
    pub fn cells(&self) -> &[u16]
        ensures { result.now ≡ term_cells self.now }
    {
        &self.cells[..self.size]
    }
}

// The lists that a program's run is lent.
ghost use Rattle.std.specs.Prelude.{◌≡◌, replicate};

#[derive(Drop)]
pub struct Lists {
    pub answers: [u16; 8192],
    pub store: [u16; 16384],
    pub scratch: [u16; 8192],
}

impl Lists {
    // All of them hold zeros.
    pub fn new() -> Lists
        ensures answers { result.answers ≡ replicate 8192 0 }
        ensures store { result.store ≡ replicate 16384 0 }
        ensures scratch { result.scratch ≡ replicate 8192 0 }
    {
        Lists {
            answers: [0; 8192],
            store: [0; 16384],
            scratch: [0; 8192],
        }
    }
}

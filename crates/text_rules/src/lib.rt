#![tactic(auto)]

ghost use Rattle.std.specs.Prelude.{◌≡◌};

// The written rules of texts (document 02, U1) have no code, as those of the runs; a crate needs a function.
pub fn same_byte(byte: u8) -> u8
    ensures { result ≡ byte }
{
    byte
}

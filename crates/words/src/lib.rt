// Slices of words: copies, the mirror image of one, words moved down. Nothing about logic.
//
// Words are copied one by one: std's `copy_from_slice` and `copy_within` call `memmove`, which an archive for C would want from outside.
#![tactic(auto)]

ghost use Rattle.std.specs.Prelude.{◌≡◌, ◌-◌, ◌≤◌, reverse, length, take, drop};
ghost use Rattle.std.proofs.lemmas.List.Edits.{sets};

// Copies `from` to `to`.
pub fn copy(from: &[u16], to: &mut [u16])
    requires { length to.old ≡ length from.now }
    ensures { to.new ≡ from.now }
{
    for i in 0..from.len() {
        to[i] = from[i];
    }
}

// Copies `from` to `to`, the last word first.
pub fn mirror(from: &[u16], to: &mut [u16])
    requires { length to.old ≡ length from.now }
    ensures { to.new ≡ reverse from.now }
{
    copy(from, to);
    to.reverse();
}

// Moves the words of s from a up to, not including, b down by d places.
pub fn move_down(s: &mut [u16], a: usize, b: usize, d: usize)
    requires { (d ≤ a) × (a ≤ b) × (b ≤ length s.old) }
    ensures { s.new ≡ sets s.old (a - d) (take (b - a) (drop a s.old)) }
{
    for j in a..b {
        s[j - d] = s[j];
    }
}

// Decimal numbers, digit by digit from the greatest weight.
// By hand (a): document 02, U2, has each weight worked out from its place; `Display` says nothing where it gives `Err`, and the kit's `itoa` has no weights.
ghost use Rattle.std.specs.Prelude.{◌<◌, ◌≡◌, [], ◌∷◌};
ghost use Rattle.rules.specs.Listing.{decimal};
ghost use Rattle.listing.specs.Digits.{digit, digits_at, weight_at, weights};
ghost use Rattle.listing.specs.Put.{Fits, Adds};

use crate::output::Output;

// The weight of a place, counted from the last: ten times that of the next.
#[tactic(auto, using(crate::proofs::DigitLaws::power_weight))]
fn weight(place: u32) -> u32
    requires { place < 5 }
    ensures { result ≡ weight_at place }
{
    10u32.pow(place)
}

impl Output<'_> {
    // Writes the digit of n at a weight, unless it is a leading zero.
    fn put_digit(&mut self, n: u32, weight: u32)
        requires weight { 0 < weight }
        requires room { Fits self.old (digit weight n) }
        ensures { Adds self.old (digit weight n) self.new }
    {
        if n < weight && weight != 1 {
            return;
        }
        // `as`, since a remainder by 10 fits: `try_from` has an error that cannot come.
        self.put(&[b'0' + (n / weight % 10) as u8]);
    }

    // Writes the last five digits of n, without leading zeros where n has fewer.
    fn put_five(&mut self, n: u32)
        requires { Fits self.old (digits_at weights n) }
        ensures { Adds self.old (digits_at weights n) self.new }
    {
        for place in (0..5).rev() {
            self.put_digit(n, weight(place));
        }
    }

    // Writes n in decimal digits without leading zeros, zero as 0.
    pub fn put_number(&mut self, n: u32)
        requires { Fits self.old (decimal n []) }
        ensures { Adds self.old (decimal n []) self.new }
    {
        if n < 100000 {
            return self.put_five(n);
        }
        self.put_five(n / 100000);
        self.put_five(n);
    }

    // Writes a byte and then a number.
    pub fn put_prefixed(&mut self, prefix: u8, n: u32)
        requires { Fits self.old (prefix ∷ decimal n []) }
        ensures { Adds self.old (prefix ∷ decimal n []) self.new }
    {
        self.put(&[prefix]);
        self.put_number(n);
    }
}

// Rounded division.
#![tactic(auto)]

ghost use Rattle.std.specs.Prelude.{◌≡◌, ◌<◌, ◌^◌};
ghost use Rattle.rounding.specs.Near.{near};

// The nearest whole number to n / d, halves up. (The library divides down or up, and not to the nearest.)
#[tactic(auto, using(crate::proofs::Laws::near_up, crate::proofs::Laws::near_down))]
pub fn rounded(n: u64, d: u64) -> u64
    requires { (0 < d) × (d < 2 ^ 63) × (n < 2 ^ 63) }
    ensures { result ≡ near n d }
{
    let quotient = n / d;
    let remainder = n % d;
    // A remainder of half the divisor or more goes up.
    if d <= 2 * remainder {
        return quotient + 1;
    }
    quotient
}

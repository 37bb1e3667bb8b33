// Fractions: a rate as N over D in lowest terms, found by Euclid's rule, and exact products for comparing.
// What is lowest is said by specs/Fraction.antt.
#![tactic(auto)]

ghost use Rattle.std.specs.Prelude.{◌≡◌, ◌*◌, ◌<◌, ◌^◌};
ghost use Rattle.fractions.specs.Fraction.{gcd, lowest_n, lowest_d};

// A rate N/D in bytes per second, in lowest terms.
#[derive(Clone, Copy, PartialEq, Eq, Debug)]
pub struct Rate {
    pub n: u64,
    pub d: u64,
}

// Load (bytes) over length (seconds) in lowest terms.
#[tactic(auto, using(crate::proofs::Euclid::gcd_positive))]
pub fn lowest(load: u64, length: u64) -> Rate
    requires { 0 < length }
    ensures { (result.n ≡ lowest_n load length) × (result.d ≡ lowest_d load length) }
{
    let divisor = greatest_divisor(load, length);
    Rate {
        n: load / divisor,
        d: length / divisor,
    }
}

// The greatest common divisor by Euclid's rule: that of a and b is that of b and what a leaves over b, and beside 0 it is a.
// It calls itself, since docs/DECISIONS.md asks for that form here ("A form for each place").
#[tactic(auto, using(crate::proofs::Euclid::gcd_zero, crate::proofs::Euclid::gcd_turn))]
pub fn greatest_divisor(a: u64, b: u64) -> u64
    ensures { result ≡ gcd a b }
{
    if b == 0 {
        a
    } else {
        greatest_divisor(b, a % b)
    }
}

// The product of two figures below 2^32, exactly. Two densities are compared by two such products.
pub fn cross(a: u64, b: u64) -> u64
    requires { (a < 2 ^ 32) × (b < 2 ^ 32) }
    ensures { result ≡ a * b }
{
    a * b
}

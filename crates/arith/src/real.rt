// Reals from integers, and to and from their 64 bits.
ghost use Rattle.std.specs.Prelude.{◌≡◌, true, Some, Ok, Float};
ghost use Rattle.std.specs.Float.{float_is_finite};
ghost use Rattle.arith.specs.Reals.{of_integer, whole_part, pattern_of, of_pattern};

// Every integer is a real without rounding: its whole part is the integer again.
#[tactic(auto, using(crate::proofs::Truncating::integer_finite, crate::proofs::Truncating::integer_back))]
pub fn real_from_integer(n: i32) -> f64
    ensures value { result ≡ of_integer n }
    ensures number { float_is_finite result ≡ true }
    ensures back { whole_part result ≡ Ok n }
{
    f64::from(n)
}

// The real whose 64 bits these are, if it is finite.
pub fn real_from_pattern(bits: u64) -> Option<f64>
    ensures value { result ≡ of_pattern bits }
    ensures back { (x : Float) → result ≡ Some x → pattern_of x ≡ bits }
{
    let x = std::num::f64_from_bits_with_nan(bits);
    x.is_finite().then_some(x)
}

#[tactic(auto, using(crate::proofs::Patterns::real_back))]
pub fn pattern(x: f64) -> u64
    ensures value { result ≡ pattern_of x }
    ensures back { float_is_finite x ≡ true → of_pattern result ≡ Some x }
{
    std::num::f64_to_bits_with_nan(x)
}

ghost use Rattle.std.specs.Prelude.{◌≡◌, ℤ, Some};
ghost use Rattle.arith.specs.Quotients.{whole_quotient, Divides};

// Of any two whole numbers of 128 bits: the machine's own division, of 32 bits, goes through it (`exact.rt`), and so does the writer of decimal columns.
// The fraction is dropped toward zero. None for a zero divisor, and where the quotient has more than 128 bits.
#[tactic(auto, using(crate::proofs::Dividing::answer_divides))]
pub fn quotient(dividend: i128, divisor: i128) -> Option<i128>
    ensures value { result ≡ whole_quotient dividend divisor }
    ensures law { (q : ℤ) → result ≡ Some q → Divides dividend divisor q }
{
    dividend.checked_div(divisor)
}

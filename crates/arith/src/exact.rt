// Integers of 32 bits: a result outside them is refused.
ghost use Rattle.std.specs.Prelude.{◌≡◌, ◌+ℤ◌, ◌*ℤ◌, neg_ℤ, ℤ, Ok};
ghost use Rattle.sheet.specs.declared.operation.Arithmetic.TheVariants.{Div};
ghost use Rattle.arith.specs.Quotients.{Divides};
ghost use Rattle.arith.specs.Integers.{integer_of, integer_arithmetic, integer_checked, character_of};

use crate::division::quotient;
use sheet::operation::Arithmetic;
use sheet::stop::Stop;

pub fn negation(x: i32) -> Result<i32, Stop>
    ensures { result ≡ integer_of (neg_ℤ x) }
{
    x.checked_neg().ok_or(Stop::OutsideKind)
}

#[tactic(auto, using(crate::proofs::Dividing::ratio_divides))]
fn ratio(x: i32, y: i32) -> Result<i32, Stop>
    ensures value { result ≡ integer_arithmetic Div x y }
    ensures law { (q : ℤ) → integer_arithmetic Div x y ≡ Ok q → Divides x y q }
{
    // In 128 bits every quotient of integers fits, so that only a zero divisor has none.
    let Some(z) = quotient(i128::from(x), i128::from(y)) else {
        return Err(Stop::ZeroDivisor);
    };
    narrowed(z)
}

pub fn arithmetic(op: Arithmetic, x: i32, y: i32) -> Result<i32, Stop>
    ensures { result ≡ integer_arithmetic op x y }
{
    match op {
        Arithmetic::Add => x.checked_add(y).ok_or(Stop::OutsideKind),
        Arithmetic::Sub => x.checked_sub(y).ok_or(Stop::OutsideKind),
        Arithmetic::Mul => x.checked_mul(y).ok_or(Stop::OutsideKind),
        Arithmetic::Div => ratio(x, y),
    }
}

// The place `i` elements of `q` cells past `a`: the product alone may pass 32 bits.
pub fn indexed(a: i32, i: i32, q: i32) -> Result<i32, Stop>
    ensures { result ≡ integer_of (a +ℤ i *ℤ q) }
{
    narrowed(i128::from(a) + i128::from(i) * i128::from(q))
}

pub fn checked(p: i32, q: i32, i: i32) -> Result<i32, Stop>
    ensures { result ≡ integer_checked p q i }
{
    if (p..=q).contains(&i) {
        Ok(i)
    } else {
        Err(Stop::OutsideBounds)
    }
}

// An exact result, if it lies in 32 bits.
pub fn narrowed(z: i128) -> Result<i32, Stop>
    ensures { result ≡ integer_of z }
{
    i32::try_from(z).map_err(|_| Stop::OutsideKind)
}

// The character with a number, if there is one.
pub fn character(z: i128) -> Result<u8, Stop>
    ensures { result ≡ character_of z }
{
    u8::try_from(z).map_err(|_| Stop::OutsideKind)
}

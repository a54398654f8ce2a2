// Reals: IEEE 754's operations on 64 bits, each rounded once, whose results have to be finite.
ghost use Rattle.std.specs.Prelude.{◌≡◌};
ghost use Rattle.std.specs.Float.Ieee as Ieee;
ghost use Rattle.arith.specs.Reals.{real_of, real_arithmetic, whole_part};

use crate::exact::narrowed;
use sheet::operation::Arithmetic;
use sheet::stop::Stop;

pub fn arithmetic(op: Arithmetic, x: f64, y: f64) -> Result<f64, Stop>
    ensures { result ≡ real_arithmetic op x y }
{
    match op {
        Arithmetic::Add => finite(x + y),
        Arithmetic::Sub => finite(x - y),
        Arithmetic::Mul => finite(x * y),
        Arithmetic::Div => {
            if y == 0.0 {
                return Err(Stop::ZeroDivisor);
            }
            finite(x / y)
        }
    }
}

pub fn negation(x: f64) -> Result<f64, Stop>
    ensures { result ≡ real_of (Ieee.neg x) }
{
    finite(-x)
}

// A real that is not finite is refused first; then the fraction is dropped, and the range is tested last.
pub fn whole_part(x: f64) -> Result<i32, Stop>
    ensures { result ≡ whole_part x }
{
    let x = finite(x)?;
    narrowed(i128::from(to_whole(x)))
}

// The fraction is dropped, and what lies past 64 bits stops at their ends. By itself: inline, the check finds no proof of the whole part.
fn to_whole(x: f64) -> i64
    ensures { result ≡ Ieee.to_signed 63 x }
{
    std::num::saturating_f64_to_i64(x)
}

fn finite(x: f64) -> Result<f64, Stop>
    ensures { result ≡ real_of x }
{
    x.is_finite().then_some(x).ok_or(Stop::OutsideKind)
}

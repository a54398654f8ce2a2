// The operations on values. A value of another kind than the operation takes is refused first; exact.rt, relation.rt and rounded.rt compute.
ghost use Rattle.std.specs.Prelude.{◌≡◌, ◌^◌, ◌≤ℤ◌, pos, negsuc};
ghost use Rattle.arith.specs.Operations.{arithmetic, binary_result, conversion, increment, index, negation, unary_result, Proper};
ghost use Rattle.arith.specs.Relations.{relation};

use crate::real::real_from_integer;
use crate::relation::{integers_stand, reals_stand};
use crate::{exact, rounded};
use sheet::kind::Kind;
use sheet::operation::{Arithmetic, Binary, Conversion, Numeric, Ordinal, Relation, Unary};
use sheet::place::StorePlace;
use sheet::stop::Stop;
use sheet::value::Value;

// The lower value is the left operand.
// Here and below each operand has a line: a generic function of both would promise by `try_from_gives`, which each caller would have to open.
pub fn binary(op: Binary, lower: Value, top: Value) -> Result<Value, Stop>
    ensures value { result ≡ binary_result op lower top }
    ensures proper { Proper result }
{
    match op {
        Binary::Arithmetic(op, numeric) => computed(op, numeric, lower, top),
        Binary::And => {
            let left = bool::try_from(lower)?;
            let right = bool::try_from(top)?;
            Ok(Value::Boolean(left && right))
        }
        Binary::Or => {
            let left = bool::try_from(lower)?;
            let right = bool::try_from(top)?;
            Ok(Value::Boolean(left || right))
        }
        Binary::Compare(how, kind) => Ok(Value::Boolean(compared(how, kind, lower, top)?)),
        Binary::Index(q) => indexed(q, lower, top),
    }
}

pub fn unary(op: Unary, x: Value) -> Result<Value, Stop>
    ensures value { result ≡ unary_result op x }
    ensures proper { Proper result }
{
    match op {
        Unary::Negate(numeric) => negated(numeric, x),
        Unary::Not => Ok(Value::Boolean(!bool::try_from(x)?)),
        Unary::Increment(ordinal, q) => stepped(ordinal, i128::from(q), x),
        Unary::Decrement(ordinal, q) => stepped(ordinal, -i128::from(q), x),
        Unary::Check(p, q) => Ok(Value::Integer(exact::checked(p, q, i32::try_from(x)?)?)),
        Unary::Convert(conversion) => converted(conversion, x),
    }
}

fn computed(op: Arithmetic, numeric: Numeric, lower: Value, top: Value) -> Result<Value, Stop>
    ensures { result ≡ arithmetic op numeric lower top }
{
    match numeric {
        Numeric::Integer => {
            let left = i32::try_from(lower)?;
            let right = i32::try_from(top)?;
            Ok(Value::Integer(exact::arithmetic(op, left, right)?))
        }
        Numeric::Real => {
            let left = f64::try_from(lower)?;
            let right = f64::try_from(top)?;
            Ok(Value::Real(rounded::arithmetic(op, left, right)?))
        }
    }
}

// Addresses, Booleans and characters compare by their numbers, false below true.
fn compared(how: Relation, kind: Kind, lower: Value, top: Value) -> Result<bool, Stop>
    ensures { result ≡ relation how kind lower top }
{
    match kind {
        Kind::Address => {
            let left = StorePlace::try_from(lower)?;
            let right = StorePlace::try_from(top)?;
            Ok(integers_stand(how, left.0, right.0))
        }
        Kind::Boolean => {
            let left = bool::try_from(lower)?;
            let right = bool::try_from(top)?;
            Ok(integers_stand(how, i32::from(left), i32::from(right)))
        }
        Kind::Character => {
            let left = u8::try_from(lower)?;
            let right = u8::try_from(top)?;
            Ok(integers_stand(how, i32::from(left), i32::from(right)))
        }
        Kind::Integer => {
            let left = i32::try_from(lower)?;
            let right = i32::try_from(top)?;
            Ok(integers_stand(how, left, right))
        }
        Kind::Real => {
            let left = f64::try_from(lower)?;
            let right = f64::try_from(top)?;
            Ok(reals_stand(how, left, right))
        }
    }
}

fn indexed(q: i32, lower: Value, top: Value) -> Result<Value, Stop>
    ensures { result ≡ index q lower top }
{
    let address = StorePlace::try_from(lower)?;
    let i = i32::try_from(top)?;
    let place = exact::indexed(address.0, i, q)?;
    Ok(Value::Address(StorePlace(place)))
}

fn negated(numeric: Numeric, x: Value) -> Result<Value, Stop>
    ensures { result ≡ negation numeric x }
{
    match numeric {
        Numeric::Integer => Ok(Value::Integer(exact::negation(i32::try_from(x)?)?)),
        Numeric::Real => Ok(Value::Real(rounded::negation(f64::try_from(x)?)?)),
    }
}

// The value that is `amount` more.
fn stepped(ordinal: Ordinal, amount: i128, x: Value) -> Result<Value, Stop>
    requires low { negsuc (2 ^ 32) ≤ℤ amount }
    requires high { amount ≤ℤ pos (2 ^ 32) }
    ensures { result ≡ increment ordinal amount x }
{
    match ordinal {
        Ordinal::Address => {
            let place = exact::narrowed(i128::from(StorePlace::try_from(x)?.0) + amount)?;
            Ok(Value::Address(StorePlace(place)))
        }
        Ordinal::Character => {
            let number = i128::from(u8::try_from(x)?) + amount;
            Ok(Value::Character(exact::character(number)?))
        }
        Ordinal::Integer => {
            let number = i128::from(i32::try_from(x)?) + amount;
            Ok(Value::Integer(exact::narrowed(number)?))
        }
    }
}

fn converted(how: Conversion, x: Value) -> Result<Value, Stop>
    ensures { result ≡ conversion how x }
{
    match how {
        Conversion::IntegerToReal => Ok(Value::Real(real_from_integer(i32::try_from(x)?))),
        Conversion::RealToInteger => Ok(Value::Integer(rounded::whole_part(f64::try_from(x)?)?)),
        Conversion::CharacterToInteger => Ok(Value::Integer(i32::from(u8::try_from(x)?))),
        Conversion::IntegerToCharacter => {
            let number = i128::from(i32::try_from(x)?);
            Ok(Value::Character(exact::character(number)?))
        }
    }
}

use crate::division::quotient;
use crate::operation::{binary, unary};
use crate::real::{pattern, real_from_pattern};
use sheet::kind::Kind;
use sheet::operation::{Arithmetic, Binary, Conversion, Numeric, Ordinal, Relation, Unary};
use sheet::place::StorePlace;
use sheet::stop::Stop;
use sheet::value::Value;

fn integers(op: Arithmetic, x: i32, y: i32) -> Result<Value, Stop> {
    binary(
        Binary::Arithmetic(op, Numeric::Integer),
        Value::Integer(x),
        Value::Integer(y),
    )
}

fn reals(op: Arithmetic, x: f64, y: f64) -> Result<Value, Stop> {
    binary(
        Binary::Arithmetic(op, Numeric::Real),
        Value::Real(x),
        Value::Real(y),
    )
}

#[test]
fn integers_stay_in_their_range(rt: HostRuntime) {
    assert_eq!(rt;
        integers(Arithmetic::Add, i32::MAX - 1, 1),
        Ok(Value::Integer(i32::MAX))
    );
    assert_eq!(rt;
        integers(Arithmetic::Add, i32::MAX, 1),
        Err(Stop::OutsideKind)
    );
    assert_eq!(rt;
        integers(Arithmetic::Sub, i32::MIN, 1),
        Err(Stop::OutsideKind)
    );
    assert_eq!(rt;
        integers(Arithmetic::Mul, 71_582_788, 30),
        Ok(Value::Integer(2_147_483_640))
    );
    assert_eq!(rt;
        integers(Arithmetic::Mul, 71_582_789, 30),
        Err(Stop::OutsideKind)
    );
    assert_eq!(rt;
        unary(Unary::Negate(Numeric::Integer), Value::Integer(i32::MIN)),
        Err(Stop::OutsideKind)
    );
    assert_eq!(rt;
        unary(
            Unary::Decrement(Ordinal::Integer, i32::MIN),
            Value::Integer(-1),
        ),
        Ok(Value::Integer(i32::MAX))
    );
    assert_eq!(rt;
        unary(Unary::Check(1, 5), Value::Integer(5)),
        Ok(Value::Integer(5))
    );
    assert_eq!(rt;
        unary(Unary::Check(1, 5), Value::Integer(6)),
        Err(Stop::OutsideBounds)
    );
    assert_eq!(rt;
        unary(Unary::Check(1, 5), Value::Boolean(true)),
        Err(Stop::WrongCell)
    );
}

#[test]
fn division_drops_the_fraction(rt: HostRuntime) {
    assert_eq!(rt; integers(Arithmetic::Div, 7, -2), Ok(Value::Integer(-3)));
    assert_eq!(rt; integers(Arithmetic::Div, -7, 2), Ok(Value::Integer(-3)));
    assert_eq!(rt; integers(Arithmetic::Div, -7, -2), Ok(Value::Integer(3)));
    assert_eq!(rt;
        integers(Arithmetic::Div, i32::MIN, -1),
        Err(Stop::OutsideKind)
    );
    assert_eq!(rt; integers(Arithmetic::Div, 0, 0), Err(Stop::ZeroDivisor));
    assert_eq!(rt; quotient(i128::MIN, -1), None);
}

#[test]
fn reals_are_finite(rt: HostRuntime) {
    assert_eq!(rt; reals(Arithmetic::Div, 1.0, -0.0), Err(Stop::ZeroDivisor));
    assert_eq!(rt; reals(Arithmetic::Mul, 1e308, 10.0), Err(Stop::OutsideKind));
    assert_eq!(rt;
        reals(Arithmetic::Add, 0.1, 0.2),
        Ok(Value::Real(0.30000000000000004))
    );
    assert_eq!(rt;
        binary(
            Binary::Compare(Relation::Equal, Kind::Real),
            Value::Real(-0.0),
            Value::Real(0.0),
        ),
        Ok(Value::Boolean(true))
    );
    assert_eq!(rt;
        unary(
            Unary::Convert(Conversion::RealToInteger),
            Value::Real(-2147483648.9),
        ),
        Ok(Value::Integer(i32::MIN))
    );
    assert_eq!(rt;
        unary(
            Unary::Convert(Conversion::RealToInteger),
            Value::Real(2147483648.0),
        ),
        Err(Stop::OutsideKind)
    );
    assert_eq!(rt;
        unary(
            Unary::Convert(Conversion::IntegerToReal),
            Value::Integer(i32::MIN),
        ),
        Ok(Value::Real(-2147483648.0))
    );
    assert_eq!(rt; real_from_pattern(pattern(1.5)), Some(1.5));
    assert_eq!(rt; real_from_pattern(0x7ff0_0000_0000_0000), None);
}

#[test]
fn addresses_and_characters_stay_in_theirs(rt: HostRuntime) {
    assert_eq!(rt;
        unary(
            Unary::Increment(Ordinal::Character, 1),
            Value::Character(255),
        ),
        Err(Stop::OutsideKind)
    );
    assert_eq!(rt;
        unary(
            Unary::Decrement(Ordinal::Character, -255),
            Value::Character(0),
        ),
        Ok(Value::Character(255))
    );
    assert_eq!(rt;
        unary(
            Unary::Convert(Conversion::IntegerToCharacter),
            Value::Integer(256),
        ),
        Err(Stop::OutsideKind)
    );
    assert_eq!(rt;
        binary(
            Binary::Index(2),
            Value::Address(StorePlace(5)),
            Value::Integer(-3),
        ),
        Ok(Value::Address(StorePlace(-1)))
    );
    assert_eq!(rt;
        binary(
            Binary::Index(i32::MIN),
            Value::Address(StorePlace(0)),
            Value::Integer(i32::MIN),
        ),
        Err(Stop::OutsideKind)
    );
    assert_eq!(rt;
        binary(Binary::Index(2), Value::Integer(5), Value::Integer(3)),
        Err(Stop::WrongCell)
    );
    assert_eq!(rt;
        binary(
            Binary::Compare(Relation::Less, Kind::Boolean),
            Value::Boolean(false),
            Value::Boolean(true),
        ),
        Ok(Value::Boolean(true))
    );
    assert_eq!(rt;
        binary(
            Binary::Compare(Relation::GreaterOrEqual, Kind::Character),
            Value::Character(65),
            Value::Character(66),
        ),
        Ok(Value::Boolean(false))
    );
}

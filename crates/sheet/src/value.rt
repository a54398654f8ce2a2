ghost use Rattle.std.specs.Prelude.{◌≡◌};
ghost use Rattle.sheet.specs.Kinds.{kind_of, is_value};
ghost use Rattle.sheet.specs.Payloads.{address_in, boolean_in, character_in, integer_in, real_in};

use crate::kind::Kind;
use crate::place::StorePlace;
use crate::stop::Stop;

// A value with its kind. A real that is not finite is a record that is no value.
#[derive(Clone, Copy, PartialEq, Debug, Drop)]
pub enum Value {
    Address(StorePlace),
    Boolean(bool),
    Character(u8),
    Integer(i32),
    Real(f64),
}

impl Value {
    pub fn kind(self) -> Kind
        ensures { result ≡ kind_of self }
    {
        match self {
            Value::Address(_) => Kind::Address,
            Value::Boolean(_) => Kind::Boolean,
            Value::Character(_) => Kind::Character,
            Value::Integer(_) => Kind::Integer,
            Value::Real(_) => Kind::Real,
        }
    }

    // Whether the record is a value.
    pub fn is_proper(self) -> bool
        ensures { result ≡ is_value self }
    {
        match self {
            Value::Real(x) => x.is_finite(),
            _ => true,
        }
    }
}

// What a value holds; one of another kind is a wrong cell. Five alike: the gate refuses an impl that a macro of the repository writes.
impl TryFrom<Value> for StorePlace {
    type Error = Stop;

    ghost try_from_gives = { λ x r. r ≡ address_in x };

    fn try_from(x: Value) -> Result<StorePlace, Stop> {
        match x {
            Value::Address(a) => Ok(a),
            _ => Err(Stop::WrongCell),
        }
    }
}

impl TryFrom<Value> for bool {
    type Error = Stop;

    ghost try_from_gives = { λ x r. r ≡ boolean_in x };

    fn try_from(x: Value) -> Result<bool, Stop> {
        match x {
            Value::Boolean(b) => Ok(b),
            _ => Err(Stop::WrongCell),
        }
    }
}

impl TryFrom<Value> for u8 {
    type Error = Stop;

    ghost try_from_gives = { λ x r. r ≡ character_in x };

    fn try_from(x: Value) -> Result<u8, Stop> {
        match x {
            Value::Character(c) => Ok(c),
            _ => Err(Stop::WrongCell),
        }
    }
}

impl TryFrom<Value> for i32 {
    type Error = Stop;

    ghost try_from_gives = { λ x r. r ≡ integer_in x };

    fn try_from(x: Value) -> Result<i32, Stop> {
        match x {
            Value::Integer(i) => Ok(i),
            _ => Err(Stop::WrongCell),
        }
    }
}

impl TryFrom<Value> for f64 {
    type Error = Stop;

    ghost try_from_gives = { λ x r. r ≡ real_in x };

    fn try_from(x: Value) -> Result<f64, Stop> {
        match x {
            Value::Real(f) => Ok(f),
            _ => Err(Stop::WrongCell),
        }
    }
}

// The operations that compute one value from one or two.
use crate::kind::Kind;

// The kinds of arithmetic.
#[derive(Clone, Copy, PartialEq, Eq, Debug, Drop)]
pub enum Numeric {
    Integer,
    Real,
}

// The kinds that inc and dec step.
#[derive(Clone, Copy, PartialEq, Eq, Debug, Drop)]
pub enum Ordinal {
    Address,
    Character,
    Integer,
}

#[derive(Clone, Copy, PartialEq, Eq, Debug, Drop)]
pub enum Arithmetic {
    Add,
    Sub,
    Mul,
    Div,
}

// How the lower cell of the stack stands to the top.
#[derive(Clone, Copy, PartialEq, Eq, Debug, Drop)]
pub enum Relation {
    Equal,
    Unequal,
    Less,
    LessOrEqual,
    Greater,
    GreaterOrEqual,
}

#[derive(Clone, Copy, PartialEq, Eq, Debug, Drop)]
pub enum Conversion {
    IntegerToReal,
    RealToInteger,
    CharacterToInteger,
    IntegerToCharacter,
}

// Two values taken, one given.
#[derive(Clone, Copy, PartialEq, Eq, Debug, Drop)]
pub enum Binary {
    Arithmetic(Arithmetic, Numeric), // (N, N) -> (N)
    And, // (b, b) -> (b)
    Or, // (b, b) -> (b)
    Compare(Relation, Kind), // (T, T) -> (b)
    Index(i32), // (a, i) -> (a): a + i * q
}

// One value taken, one given.
#[derive(Clone, Copy, PartialEq, Eq, Debug, Drop)]
pub enum Unary {
    Negate(Numeric), // (N) -> (N)
    Not, // (b) -> (b)
    Increment(Ordinal, i32), // (T) -> (T): q more
    Decrement(Ordinal, i32), // (T) -> (T): q less
    Check(i32, i32), // (i) -> (i): from p to q
    Convert(Conversion), // (T) -> (T2)
}

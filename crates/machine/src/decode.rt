// The operation that an instruction stands for.
ghost use Rattle.std.specs.Prelude.{◌≡◌};
ghost use Rattle.machine.specs.Decoding as d;

use crate::operation::Operation;
use arith::real::real_from_integer;
use sheet::instruction::Instruction;
use sheet::kind::Kind;
use sheet::mnemonic::Mnemonic;
use sheet::operation::{Arithmetic, Binary, Conversion, Numeric, Ordinal, Relation, Unary};
use sheet::place::{CodePlace, StorePlace};
use sheet::value::Value;

// A function, here and below: what it answers with None is no error, but an instruction without an operation.
fn numeric(t: Option<Kind>) -> Option<Numeric>
    ensures { result ≡ d.numeric t }
{
    match t? {
        Kind::Integer => Some(Numeric::Integer),
        Kind::Real => Some(Numeric::Real),
        _ => None,
    }
}

fn ordinal(t: Option<Kind>) -> Option<Ordinal>
    ensures { result ≡ d.ordinal t }
{
    match t? {
        Kind::Address => Some(Ordinal::Address),
        Kind::Character => Some(Ordinal::Character),
        Kind::Integer => Some(Ordinal::Integer),
        _ => None,
    }
}

// An offset, a count or a number of links. Short, since most arms need it.
fn small(operand: i32) -> Option<u16>
    ensures { result ≡ d.small operand }
{
    u16::try_from(operand).ok()
}

// Only the letters of the mnemonic are read: conv goes between i and r, and between c and i.
fn conversion(t: Option<Kind>, t2: Option<Kind>) -> Option<Conversion>
    ensures { result ≡ d.conversion t t2 }
{
    match (t?, t2?) {
        (Kind::Integer, Kind::Character) => Some(Conversion::IntegerToCharacter),
        (Kind::Integer, Kind::Real) => Some(Conversion::IntegerToReal),
        (Kind::Real, Kind::Integer) => Some(Conversion::RealToInteger),
        (Kind::Character, Kind::Integer) => Some(Conversion::CharacterToInteger),
        _ => None,
    }
}

fn readable(t: Option<Kind>) -> Option<Kind>
    ensures { result ≡ d.readable t }
{
    match t {
        Some(Kind::Address) => None,
        _ => t,
    }
}

fn truth(q: i32) -> Option<Value>
    ensures { result ≡ d.truth q }
{
    match q {
        0 => Some(Value::Boolean(false)),
        1 => Some(Value::Boolean(true)),
        _ => None,
    }
}

fn constant(t: Option<Kind>, q: i32) -> Option<Value>
    ensures { result ≡ d.constant t q }
{
    match t? {
        Kind::Address => Some(Value::Address(StorePlace(q))),
        Kind::Boolean => truth(q),
        Kind::Character => Some(Value::Character(u8::try_from(q).ok()?)),
        Kind::Integer => Some(Value::Integer(q)),
        Kind::Real => Some(Value::Real(real_from_integer(q))),
    }
}

fn arithmetic(op: Arithmetic, t: Option<Kind>) -> Option<Operation>
    ensures { result ≡ d.arithmetic op t }
{
    Some(Operation::Two(Binary::Arithmetic(op, numeric(t)?)))
}

fn comparison(relation: Relation, t: Option<Kind>) -> Option<Operation>
    ensures { result ≡ d.comparison relation t }
{
    Some(Operation::Two(Binary::Compare(relation, t?)))
}

// The operation of an instruction; none where a letter or an operand that the mnemonic uses is missing or not its own.
pub fn decode(x: Instruction) -> Option<Operation>
    ensures { result ≡ d.decode x }
{
    let Instruction {
        mnemonic,
        t,
        t2,
        p,
        q,
    } = x;
    match mnemonic {
        Mnemonic::Add => arithmetic(Arithmetic::Add, t),
        Mnemonic::Sub => arithmetic(Arithmetic::Sub, t),
        Mnemonic::Mul => arithmetic(Arithmetic::Mul, t),
        Mnemonic::Div => arithmetic(Arithmetic::Div, t),
        Mnemonic::Neg => Some(Operation::One(Unary::Negate(numeric(t)?))),
        Mnemonic::And => Some(Operation::Two(Binary::And)),
        Mnemonic::Or => Some(Operation::Two(Binary::Or)),
        Mnemonic::Not => Some(Operation::One(Unary::Not)),
        Mnemonic::Equ => comparison(Relation::Equal, t),
        Mnemonic::Neq => comparison(Relation::Unequal, t),
        Mnemonic::Les => comparison(Relation::Less, t),
        Mnemonic::Leq => comparison(Relation::LessOrEqual, t),
        Mnemonic::Grt => comparison(Relation::Greater, t),
        Mnemonic::Geq => comparison(Relation::GreaterOrEqual, t),
        Mnemonic::Ldc => Some(Operation::Ldc(constant(t, q)?)),
        Mnemonic::Ldo => Some(Operation::Ldo(t?, small(q)?)),
        Mnemonic::Sro => Some(Operation::Sro(t?, small(q)?)),
        Mnemonic::Lod => Some(Operation::Lod(t?, small(p)?, small(q)?)),
        Mnemonic::Str => Some(Operation::Str(t?, small(p)?, small(q)?)),
        Mnemonic::Lda => Some(Operation::Lda(small(p)?, small(q)?)),
        Mnemonic::Ind => Some(Operation::Ind(t?)),
        Mnemonic::Sto => Some(Operation::Sto(t?)),
        Mnemonic::Dpl => Some(Operation::Dpl(t?)),
        Mnemonic::Ixa => Some(Operation::Two(Binary::Index(q))),
        Mnemonic::Inc => Some(Operation::One(Unary::Increment(ordinal(t)?, q))),
        Mnemonic::Dec => Some(Operation::One(Unary::Decrement(ordinal(t)?, q))),
        Mnemonic::Chk => Some(Operation::One(Unary::Check(p, q))),
        Mnemonic::Ujp => Some(Operation::Ujp(CodePlace(q))),
        Mnemonic::Fjp => Some(Operation::Fjp(CodePlace(q))),
        Mnemonic::In => Some(Operation::In(readable(t)?)),
        Mnemonic::Out => Some(Operation::Out(t?)),
        Mnemonic::Conv => Some(Operation::One(Unary::Convert(conversion(t, t2)?))),
        Mnemonic::Mst => Some(Operation::Mst(small(p)?)),
        Mnemonic::Cup => Some(Operation::Cup(small(p)?, CodePlace(q))),
        Mnemonic::Ent => Some(Operation::Ent(small(p)?, small(q)?)),
        Mnemonic::Retf => Some(Operation::Retf),
        Mnemonic::Retp => Some(Operation::Retp),
        Mnemonic::Hlt => Some(Operation::Hlt),
    }
}

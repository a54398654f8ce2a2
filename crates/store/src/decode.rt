// The cell that a code and a word stand for.
ghost use Rattle.std.specs.Prelude.{◌≡◌};
ghost use Rattle.store.specs.Packing.{kind_at, number_at, value_at, shaped, cell_at};

use crate::cell::Cell;
use crate::shape::{BLANK, DATA, FREE, MARK, SHAPES, WORKING, ZERO};
use sheet::kind::Kind;
use sheet::place::StorePlace;
use sheet::value::Value;

// Not TryFrom: these numbers belong to the packed store alone.
fn kind_in(n: u8) -> Option<Kind>
    ensures { result ≡ kind_at n }
{
    match n {
        0 => Some(Kind::Address),
        1 => Some(Kind::Boolean),
        2 => Some(Kind::Character),
        3 => Some(Kind::Integer),
        4 => Some(Kind::Real),
        _ => None,
    }
}

// By a shift, as the lowest number has the word 0; by a cast, since a number shifted so always has 32 bits.
fn number_in(w: u64) -> Option<i32>
    ensures { result ≡ number_at w }
{
    let n = u32::try_from(w).ok()?;
    Some((i64::from(n) - ZERO) as i32)
}

fn value_in(kind: Kind, w: u64) -> Option<Value>
    ensures { result ≡ value_at kind w }
{
    match kind {
        Kind::Address => Some(Value::Address(StorePlace(number_in(w)?))),
        Kind::Boolean => match w {
            0 => Some(Value::Boolean(false)),
            1 => Some(Value::Boolean(true)),
            _ => None,
        },
        Kind::Character => Some(Value::Character(u8::try_from(w).ok()?)),
        Kind::Integer => Some(Value::Integer(number_in(w)?)),
        Kind::Real => Some(Value::Real(std::num::f64_from_bits_with_nan(w))),
    }
}

fn shaped_in(shape: u8, kind: Option<Kind>, w: u64) -> Option<Cell>
    ensures { result ≡ shaped shape kind w }
{
    match shape {
        FREE => Some(Cell::Free),
        MARK => Some(Cell::Mark(number_in(w)?)),
        WORKING => Some(Cell::Working(value_in(kind?, w)?)),
        DATA => Some(Cell::Data(value_in(kind?, w)?)),
        BLANK => Some(Cell::Blank(kind?)),
        _ => None,
    }
}

pub(crate) fn decode(code: u8, w: u64) -> Cell
    ensures { result ≡ cell_at code w }
{
    shaped_in(code % SHAPES, kind_in(code / SHAPES), w)
        .unwrap_or(Cell::Free)
        .cleaned()
}

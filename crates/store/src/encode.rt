// The code and the word that stand for a cell: they read back as it.
ghost use Rattle.std.specs.Prelude.{◌≡◌, ◌<◌, Some};
ghost use Rattle.sheet.specs.Kinds.{kind_of};
ghost use Rattle.store.specs.Cells.{clean};
ghost use Rattle.store.specs.Packing.{kind_at, number_at, value_at, cell_at};

use crate::cell::Cell;
use crate::shape::{BLANK, DATA, FREE, MARK, SHAPES, WORKING, ZERO};
use sheet::kind::Kind;
use sheet::value::Value;

#[derive(Clone, Copy, Drop)]
pub(crate) struct Pair {
    pub(crate) code: u8,
    pub(crate) word: u64,
}

// Not From: these numbers belong to the packed store alone.
fn kind_code(kind: Kind) -> u8
    ensures small { result < 5 }
    ensures back { kind_at result ≡ Some kind }
{
    match kind {
        Kind::Address => 0,
        Kind::Boolean => 1,
        Kind::Character => 2,
        Kind::Integer => 3,
        Kind::Real => 4,
    }
}

// The shift and the cast of `number_in`, back.
fn number_word(z: i32) -> u64
    ensures { number_at result ≡ Some z }
{
    (i64::from(z) + ZERO) as u64
}

fn value_word(x: Value) -> u64
    ensures { value_at (kind_of x) result ≡ Some x }
{
    match x {
        Value::Address(a) => number_word(a.0),
        Value::Boolean(b) => u64::from(b),
        Value::Character(n) => u64::from(n),
        Value::Integer(z) => number_word(z),
        Value::Real(f) => std::num::f64_to_bits_with_nan(f),
    }
}

pub(crate) fn encode(c: Cell) -> Pair
    ensures { cell_at result.code result.word ≡ clean c }
{
    match c {
        Cell::Free => Pair {
            code: FREE,
            word: 0,
        },
        Cell::Mark(z) => Pair {
            code: MARK,
            word: number_word(z),
        },
        Cell::Working(x) => Pair {
            code: SHAPES * kind_code(x.kind()) + WORKING,
            word: value_word(x),
        },
        Cell::Data(x) => Pair {
            code: SHAPES * kind_code(x.kind()) + DATA,
            word: value_word(x),
        },
        Cell::Blank(kind) => Pair {
            code: SHAPES * kind_code(kind) + BLANK,
            word: 0,
        },
    }
}

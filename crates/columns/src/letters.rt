ghost use Rattle.std.specs.Prelude.{◌≡◌};
ghost use Rattle.columns.specs.Letters.{kind_letter, optional_letter, line_letter};

use crate::fault::LineFault;
use sheet::kind::Kind;

// The three kinds of lines of a table's text. Here and below the letters are `char` literal cases, the form that docs/DECISIONS.md fixes.
#[derive(Clone, Copy, Drop)]
pub enum LineKind {
    Procedure,
    Cell,
    Code,
}

impl TryFrom<char> for LineKind {
    type Error = LineFault;

    ghost try_from_gives = { λ c r. r ≡ line_letter c };

    fn try_from(letter: char) -> Result<LineKind, LineFault> {
        match letter {
            'P' => Ok(LineKind::Procedure),
            'V' => Ok(LineKind::Cell),
            'C' => Ok(LineKind::Code),
            _ => Err(LineFault::Malformed),
        }
    }
}

// No `TryFrom`, since a kind is a type of another crate.
pub(crate) fn kind_by_letter(letter: char) -> Result<Kind, LineFault>
    ensures { result ≡ kind_letter letter }
{
    match letter {
        'a' => Ok(Kind::Address),
        'b' => Ok(Kind::Boolean),
        'c' => Ok(Kind::Character),
        'i' => Ok(Kind::Integer),
        'r' => Ok(Kind::Real),
        _ => Err(LineFault::Malformed),
    }
}

// '-' where there is none.
pub(crate) fn optional_kind(letter: char) -> Result<Option<Kind>, LineFault>
    ensures { result ≡ optional_letter letter }
{
    match letter {
        '-' => Ok(None),
        _ => Ok(Some(kind_by_letter(letter)?)),
    }
}

ghost use Rattle.std.specs.Prelude.{◌≡◌};
ghost use Rattle.rules.specs.Letters.{letters_ok};

use sheet::kind::Kind;
use sheet::shape::Letters;

// Whether T and T2 are letters that a mnemonic allows.
pub(crate) fn letters_ok(letters: Letters, t: Option<Kind>, t2: Option<Kind>) -> bool
    ensures { result ≡ letters_ok letters t t2 }
{
    match (letters, t, t2) {
        (Letters::Nothing, None, None) => true,
        (Letters::Number, Some(Kind::Integer | Kind::Real), None) => true,
        (Letters::Every, Some(_), None) => true,
        (Letters::Ordinal, Some(Kind::Address | Kind::Character | Kind::Integer), None) => true,
        (
            Letters::Reads,
            Some(Kind::Boolean | Kind::Character | Kind::Integer | Kind::Real),
            None,
        ) => true,
        (Letters::Pair, Some(Kind::Integer), Some(Kind::Real | Kind::Character)) => true,
        (Letters::Pair, Some(Kind::Real | Kind::Character), Some(Kind::Integer)) => true,
        _ => false,
    }
}

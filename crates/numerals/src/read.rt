ghost use Rattle.std.specs.Prelude.{◌≡◌, ◌^◌, ◌<◌, ◌≤◌, length, IfSome};
ghost use Rattle.numerals.specs.Numbers.{digits_after, natural as unsigned_number, whole as signed_number, read_column};
ghost use Rattle.numerals.specs.Laws.{ReadNumbersWriteBack};

// The widest column that any line has.
pub(crate) const WIDEST: usize = 20;

// The number that the digits `s` write. Here and below a clause says the bound of 20: a struct for three small functions would be longer.
fn digits(s: &[u8]) -> Option<u128>
    requires { length s.now ≤ 20 }
    ensures value { result ≡ digits_after 0 s.now }
    ensures bound { IfSome result (λ n. n < 10 ^ 20) }
{
    // A loop, since a try_fold's closure would say the same in more words.
    let mut n: u128 = 0;
    for b in s {
        n = n * 10 + u128::from(char::from(*b).to_digit(10)?);
    }
    Some(n)
}

// One digit, or more with no zero in front.
fn natural(s: &[u8]) -> Option<u128>
    requires { length s.now ≤ 20 }
    ensures value { result ≡ unsigned_number s.now }
    ensures bound { IfSome result (λ n. n < 10 ^ 20) }
{
    match s {
        [] | [b'0', _, ..] => None,
        _ => digits(s),
    }
}

// There is no -0. `n as i128`, since `try_from` would bring a refusal that cannot come: n is below 10 ^ 20.
fn whole(s: &[u8]) -> Option<i128>
    requires { length s.now ≤ 20 }
    ensures { result ≡ signed_number s.now }
{
    match s {
        [b'-', rest @ ..] => match natural(rest)? {
            0 => None,
            n => Some(-(n as i128)),
        },
        _ => Some(natural(s)? as i128),
    }
}

// The number that stands right-justified in `columns`.
pub fn read_number(columns: &[u8]) -> Option<i128>
    ensures value { result ≡ read_column columns.now }
    ensures written { ReadNumbersWriteBack }
{
    if columns.len() > WIDEST {
        return None;
    }
    let blanks = columns.iter().take_while(|b| **b == b' ').count();
    whole(&columns[blanks..])
}

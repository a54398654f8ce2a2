ghost use Rattle.std.specs.Prelude.{◌≡◌, ◌+◌, ◌/◌, ◌%◌, ◌++◌, length, replicate, pos, decimal};
ghost use Rattle.numerals.specs.Numbers.{write_number};
ghost use Rattle.numerals.specs.Laws.{WrittenNumbersReadBack};

use crate::read::WIDEST;
use arith::division::quotient;

// A number without its last digit, and that digit.
fn last_digit(n: u64) -> (u64, u8)
    ensures front { result.0 ≡ n / 10 }
    ensures digit { result.1 ≡ n % 10 }
{
    let Some(tenth) = quotient(i128::from(n), 10) else {
        unreachable();
    };
    let front = tenth as u64;
    (front, (n - front * 10) as u8)
}

// `n` at the end of 20 columns, and where it begins.
#[tactic(auto, using(crate::proofs::Writing::last_columns, crate::proofs::Writing::last_place))]
fn write_natural(mut n: u64) -> ([u8; WIDEST], usize)
    ensures place { result.1 + length (decimal n) ≡ 20 }
    ensures columns { result.0 ≡ replicate result.1 32 ++ decimal n }
{
    let mut columns = [b' '; WIDEST];
    // By index, since a proof knows nothing of the columns that are written through a reversed `iter_mut`.
    for i in (0..columns.len()).rev() {
        let (front, digit) = last_digit(n);
        columns[i] = b'0' + digit;
        n = front;
        if n == 0 {
            return (columns, i);
        }
    }
    (columns, 0)
}

// `z` in 20 columns.
pub fn write_signed(z: i64) -> [u8; WIDEST]
    ensures value { result ≡ write_number 20 z }
    ensures read { WrittenNumbersReadBack }
{
    let (mut columns, start) = write_natural(z.unsigned_abs());
    if z < 0 {
        columns[start - 1] = b'-';
    }
    columns
}

// `n` in 20 columns.
pub fn write_unsigned(n: u64) -> [u8; WIDEST]
    ensures value { result ≡ write_number 20 (pos n) }
    ensures read { WrittenNumbersReadBack }
{
    write_natural(n).0
}

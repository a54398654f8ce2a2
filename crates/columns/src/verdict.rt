ghost use Rattle.std.specs.Prelude.{◌≡◌};
ghost use Rattle.columns.specs.Verdicts.{write_verdict};

use numerals::write::write_unsigned;

// The last line that a program writes: z, a number, the line, instruction or count that goes with it, in 20 columns each, and the end.
#[tactic(auto, using(crate::proofs::Filling::verdict_line))]
pub fn write_verdict(number: u64, place: u64) -> [u8; 42]
    ensures { result ≡ write_verdict number place }
{
    let mut line = [b'\n'; 42];
    line[0] = b'z';
    line[1..21].copy_from_slice(&write_unsigned(number));
    line[21..41].copy_from_slice(&write_unsigned(place));
    line
}

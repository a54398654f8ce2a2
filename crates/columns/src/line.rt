ghost use Rattle.std.specs.Prelude.{◌≡◌, ◌+◌, ◌<◌, ◌≤◌, length, if◌then◌else◌, ◌==◌};
ghost use Rattle.columns.specs.declared.fault.LineFault.TheVariants.{Malformed};
ghost use Rattle.columns.specs.TableLines.{number_in, short, integer, read_procedure, read_cell, read_code, read_line};

use crate::fault::LineFault;
use crate::letters::{LineKind, kind_by_letter, optional_kind};
use numerals::read::read_number;
use sheet::instruction::Instruction;
use sheet::kind::Kind;
use sheet::mnemonic::Mnemonic;

// A procedure line: what it says of the procedure, but for its cells.
#[derive(Clone, Copy, Drop)]
pub struct Heading {
    pub number: u16,
    pub parent: u16,
    pub first: u16,
    pub parameters: u16,
    pub result: Option<Kind>,
}

#[derive(Clone, Copy, Drop)]
pub enum Line {
    Procedure(Heading),
    Cell(Kind),
    Code(u16, Instruction),
}

// The number at a place and of a width, as the format gives its columns.
pub(crate) fn number_in(line: &[u8], at: usize, width: usize) -> Result<i128, LineFault>
    requires { at + width ≤ length line.now }
    ensures { result ≡ number_in at width line.now }
{
    read_number(&line[at..at + width]).ok_or(LineFault::Malformed)
}

// Each range has a function of its own: with the conversions inline, the check finds no proof of a whole line.
// One generic function would promise by `try_from_gives` of its type, which each caller would have to open.
fn short(n: i128) -> Result<u16, LineFault>
    ensures { result ≡ short n }
{
    Ok(u16::try_from(n)?)
}

fn operand(n: i128) -> Result<i32, LineFault>
    ensures { result ≡ integer n }
{
    Ok(i32::try_from(n)?)
}

// Refuses a line whose `byte` is not the one that is wanted there.
pub(crate) fn expect(byte: u8, wanted: u8) -> Result<(), LineFault>
    ensures { result ≡ (if byte == wanted then Ok tt else Err Malformed) }
{
    if byte == wanted {
        Ok(())
    } else {
        Err(LineFault::Malformed)
    }
}

// All columns are read before any number is held against its range.
fn read_procedure(line: &[u8]) -> Result<Heading, LineFault>
    ensures { result ≡ read_procedure line.now }
{
    if line.len() != 27 {
        return Err(LineFault::Malformed);
    }
    let a = number_in(line, 1, 6)?;
    let b = number_in(line, 7, 6)?;
    let c = number_in(line, 13, 6)?;
    let d = number_in(line, 19, 6)?;
    let result = optional_kind(char::from(line[25]))?;
    expect(line[26], b'\n')?;
    Ok(Heading {
        number: short(a)?,
        parent: short(b)?,
        first: short(c)?,
        parameters: short(d)?,
        result,
    })
}

fn read_cell(line: &[u8]) -> Result<Kind, LineFault>
    ensures { result ≡ read_cell line.now }
{
    match line {
        [_, letter, b'\n'] => kind_by_letter(char::from(*letter)),
        _ => Err(LineFault::Malformed),
    }
}

fn read_code(line: &[u8]) -> Result<Line, LineFault>
    ensures { result ≡ read_code line.now }
{
    if line.len() != 39 {
        return Err(LineFault::Malformed);
    }
    let n = number_in(line, 1, 6)?;
    expect(line[7], b' ')?;
    // Byte by byte, since `<[u8; 4]>::try_from(&line[8..12])` would bring a refusal that cannot come.
    let name = [line[8], line[9], line[10], line[11]];
    let mnemonic = Mnemonic::by_name(name).ok_or(LineFault::Malformed)?;
    let t = optional_kind(char::from(line[12]))?;
    let t2 = optional_kind(char::from(line[13]))?;
    let a = number_in(line, 14, 12)?;
    let b = number_in(line, 26, 12)?;
    expect(line[38], b'\n')?;
    let number = short(n)?;
    let instruction = Instruction {
        mnemonic,
        t,
        t2,
        p: operand(a)?,
        q: operand(b)?,
    };
    Ok(Line::Code(number, instruction))
}

pub(crate) fn read_line(line: &[u8]) -> Result<Line, LineFault>
    ensures { result ≡ read_line line.now }
{
    let [letter, ..] = line else {
        return Err(LineFault::Malformed);
    };
    match LineKind::try_from(char::from(*letter))? {
        LineKind::Procedure => Ok(Line::Procedure(read_procedure(line)?)),
        LineKind::Cell => Ok(Line::Cell(read_cell(line)?)),
        LineKind::Code => read_code(line),
    }
}

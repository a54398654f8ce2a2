// The cases of both indexes.
use crate::stack::read_row;
use rows::row::Row;
use std::alloc::{AllocError, Global};
use std::str::SplitWhitespace;

// How many are lent: so many more than there are instructions, or fewer.
#[derive(Clone, Copy, Drop)]
pub struct Lent(isize);

impl Lent {
    fn read(word: &str) -> Option<Lent> {
        word.parse().ok().map(Lent)
    }

    pub(crate) fn over(self, instructions: usize) -> usize {
        instructions.saturating_add_signed(self.0)
    }
}

#[derive(Clone, Copy, Drop)]
pub struct JudgedCase<'a> {
    pub name: &'a str,
    pub rows: Lent,
    pub places: Lent,
    pub made: Option<usize>, // how many instructions a made text has
}

pub(crate) fn read_judged(line: &str) -> Option<JudgedCase<'_>> {
    let mut words = line.split_whitespace();
    let name = words.next()?;
    let rows = Lent::read(words.next()?)?;
    let places = Lent::read(words.next()?)?;
    let made = words.next().map(|word| word.parse()).transpose().ok()?;
    Some(JudgedCase {
        name,
        rows,
        places,
        made,
    })
}

// The row that an instruction gets.
#[derive(Clone, Copy, Drop)]
pub struct Change {
    pub instruction: usize,
    pub row: Row,
}

#[derive(Drop)]
pub struct AdmittedCase<'a> {
    pub name: &'a str,
    pub rows: Lent,
    pub changes: Vec<Change>,
}

fn read_change(word: &str) -> Option<Change> {
    let (instruction, stack) = word.split_once('=')?;
    Some(Change {
        instruction: instruction.parse().ok()?,
        row: read_row(stack)?,
    })
}

fn read_changes(
    heap: Global,
    words: SplitWhitespace<'_>,
) -> Result<Option<Vec<Change>>, AllocError> {
    let mut changes = Vec::new(heap);
    for word in words {
        match read_change(word) {
            Some(change) => changes.push(change)?,
            None => return Ok(None),
        }
    }
    Ok(Some(changes))
}

fn read_lent<'a>(words: &mut SplitWhitespace<'a>) -> Option<(&'a str, Lent)> {
    let name = words.next()?;
    let rows = Lent::read(words.next()?)?;
    Some((name, rows))
}

pub(crate) fn read_admitted(
    heap: Global,
    line: &str,
) -> Result<Option<AdmittedCase<'_>>, AllocError> {
    let mut words = line.split_whitespace();
    let Some((name, rows)) = read_lent(&mut words) else {
        return Ok(None);
    };
    let changes = read_changes(heap, words)?;
    Ok(changes.map(|changes| AdmittedCase {
        name,
        rows,
        changes,
    }))
}

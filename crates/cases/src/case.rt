// A case of the index, and the texts that are made.
use columns::table_text::Extent;
use std::alloc::{AllocError, Global};
use std::str::SplitWhitespace;

// How many lines of each letter a made text has, and what stands last.
#[derive(Clone, Copy, Drop)]
pub struct Recipe<'a> {
    pub lines: Extent,
    pub tail: &'a str,
}

#[derive(Clone, Copy, Drop)]
pub struct Case<'a> {
    pub name: &'a str,
    pub room: Extent,
    pub recipe: Option<Recipe<'a>>,
}

fn read_count(word: Option<&str>) -> Option<usize> {
    word?.parse().ok()
}

fn read_extent(words: &mut SplitWhitespace<'_>) -> Option<Extent> {
    let procedures = read_count(words.next())?;
    let cells = read_count(words.next())?;
    let code = read_count(words.next())?;
    Some(Extent {
        procedures,
        cells,
        code,
    })
}

pub(crate) fn read_case(line: &str) -> Option<Case<'_>> {
    let mut words = line.split_whitespace();
    let name = words.next()?;
    let room = read_extent(&mut words)?;
    let recipe = read_extent(&mut words).map(|lines| Recipe {
        lines,
        tail: words.next().unwrap_or(""),
    });
    Some(Case { name, room, recipe })
}

pub(crate) fn read_value_case(line: &str) -> Option<(&str, usize)> {
    let mut words = line.split_whitespace();
    let name = words.next()?;
    let room = read_count(words.next())?;
    Some((name, room))
}

impl Recipe<'_> {
    pub(crate) fn text(self, heap: Global) -> Result<String, AllocError> {
        let mut text = String::new(heap);
        for i in 0..self.lines.procedures {
            let line = format!(in heap; "P{i:>6}     0     0     0-\n")?;
            text.push_str(line.as_str())?;
        }
        for _ in 0..self.lines.cells {
            text.push_str("Vi\n")?;
        }
        for i in 0..self.lines.code {
            let line = format!(in heap; "C{i:>6} hlt --           0           0\n")?;
            text.push_str(line.as_str())?;
        }
        text.push_str(self.tail)?;
        Ok(text)
    }
}

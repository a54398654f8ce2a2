// Stacks in words, the top at the right.
use rows::entry::Entry;
use rows::row::Row;
use sheet::kind::Kind;
use std::alloc::{AllocError, Global};

// A list of words between parentheses, after what may lie below them.
#[derive(Drop)]
pub(crate) struct Words {
    text: String,
    is_empty: bool,
}

impl Words {
    pub(crate) fn begin(heap: Global) -> Result<Words, AllocError> {
        Ok(Words {
            text: String::from_str(heap, "(")?,
            is_empty: true,
        })
    }

    pub(crate) fn add(&mut self, word: &str) -> Result<(), AllocError> {
        if !self.is_empty {
            self.text.push_str(", ")?;
        }
        self.is_empty = false;
        self.text.push_str(word)
    }

    pub(crate) fn add_kind(&mut self, heap: Global, kind: Kind) -> Result<(), AllocError> {
        let letter = kind.letter() as char;
        let word = format!(in heap; "{letter}")?;
        self.add(word.as_str())
    }

    pub(crate) fn add_mark(&mut self, heap: Global, links: usize) -> Result<(), AllocError> {
        let word = format!(in heap; "mark {links}")?;
        self.add(word.as_str())
    }

    // Entries of a row.
    pub(crate) fn add_entries(&mut self, heap: Global, entries: &[u8]) -> Result<(), AllocError> {
        for byte in entries {
            match Entry::from(*byte) {
                Entry::Value(kind) => self.add_kind(heap, kind)?,
                Entry::Mark(links) => self.add_mark(heap, links as usize)?,
            }
        }
        Ok(())
    }

    pub(crate) fn end(self) -> Result<String, AllocError> {
        let Words {
            mut text,
            is_empty: _,
        } = self;
        text.push(')')?;
        Ok(text)
    }
}

// A stack of these entries, after what may lie below them.
fn listed(heap: Global, below: Option<&str>, entries: &[u8]) -> Result<String, AllocError> {
    let mut words = Words::begin(heap)?;
    if let Some(below) = below {
        words.add(below)?;
    }
    words.add_entries(heap, entries)?;
    words.end()
}

// The stack that a row stands for.
pub(crate) fn stack(heap: Global, row: Row) -> Result<String, AllocError> {
    if !row.is_reached() {
        return String::from_str(heap, "not reached");
    }
    listed(heap, None, row.entry_bytes())
}

// The places that an entry takes, with the comma before it.
fn width_of(entry: Entry) -> usize {
    match entry {
        Entry::Value(_) => 3,
        Entry::Mark(_) => 8,
    }
}

// How many of the entries, from the top, have room in this width after the two dots.
fn room_for(entries: &[u8], width: usize) -> usize {
    let mut left = width.saturating_sub(4);
    let mut count = 0usize;
    for byte in entries.iter().rev() {
        let Some(rest) = left.checked_sub(width_of(Entry::from(*byte))) else {
            break;
        };
        left = rest;
        count = count.saturating_add(1);
    }
    count
}

// The stack that a row stands for, or its top where it is wider than this.
pub(crate) fn stack_within(heap: Global, row: Row, width: usize) -> Result<String, AllocError> {
    let whole = stack(heap, row)?;
    if whole.len() <= width {
        return Ok(whole);
    }
    let entries = row.entry_bytes();
    let below = entries.len().saturating_sub(room_for(entries, width));
    listed(heap, Some(".."), entries.get(below..).unwrap_or(entries))
}

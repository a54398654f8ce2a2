// What a listing says of a refusal: a sentence, then notes of it in two columns.
use std::alloc::{AllocError, Global};

// What was expected, and what was found.
pub(crate) type Pair = (String, String);

#[derive(Drop)]
struct Note {
    label: String,
    words: String,
}

#[derive(Drop)]
pub(crate) struct Notes {
    head: String,
    notes: Vec<Note>,
}

impl Notes {
    pub(crate) fn under(heap: Global, head: String) -> Notes {
        Notes {
            head,
            notes: Vec::new(heap),
        }
    }

    pub(crate) fn add(&mut self, label: String, words: String) -> Result<(), AllocError> {
        self.notes.push(Note { label, words })?;
        Ok(())
    }

    fn width(&self) -> usize {
        self.notes
            .iter()
            .fold(0, |width: usize, note| width.max(note.label.len()))
    }

    pub(crate) fn text(self, heap: Global) -> Result<String, AllocError> {
        let width = self.width();
        let head = self.head.as_str();
        let mut out = format!(in heap; "Refused: {head}\n\n")?;
        for note in &self.notes {
            out.push_str("  ")?;
            out.push_str(note.label.as_str())?;
            for _ in note.label.len()..width {
                out.push(' ')?;
            }
            out.push_str("  ")?;
            out.push_str(note.words.as_str())?;
            out.push('\n')?;
        }
        out.push('\n')?;
        Ok(out)
    }
}

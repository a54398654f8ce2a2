ghost use Rattle.std.specs.Prelude.{◌≡◌};
ghost use Rattle.store.specs.Cells.{put_answer, put};
ghost use Rattle.store.specs.Meanings.{cells_of_packed};
ghost use Rattle.store.specs.Packing.{packed_cells};

use crate::cell::Cell;
use crate::decode::decode;
use crate::encode::encode;
use crate::slot::{PastTheEnd, Slot};
use crate::store::Store;

// A store over lent one-byte codes beside lent words: two lists take nine bytes a cell, where one of pairs would take sixteen.
// A pair that is no cell reads as free; the shorter list gives the length.
#[derive(Drop)]
pub struct Packed<'a> {
    codes: &'a mut [u8],
    words: &'a mut [u64],
}

impl<'a> Packed<'a> {
    pub fn over(codes: &'a mut [u8], words: &'a mut [u64]) -> Packed<'a>
        ensures name { (result.codes.ghost_name ≡ codes.entry.ghost_name) × (result.words.ghost_name ≡ words.entry.ghost_name) }
        ensures held { cells_of_packed result ≡ packed_cells codes.old words.old }
    {
        Packed { codes, words }
    }
}

impl Store for Packed<'_> {
    ghost cells = { cells_of_packed };

    #[tactic(auto, using(crate::proofs::Packings::length_packed, crate::proofs::Packings::all_packed))]
    fn len(&self) -> usize {
        self.codes.len().min(self.words.len())
    }

    #[tactic(auto, using(crate::proofs::Packings::finds))]
    fn read(&self, x: Slot) -> Result<Cell, PastTheEnd> {
        let i = x.0 as usize;
        let (Some(code), Some(word)) = (self.codes.get(i), self.words.get(i)) else {
            return Err(PastTheEnd);
        };
        Ok(decode(*code, *word))
    }

    // `name` stands here, since the trait knows no lists: those that were lent hold what was written.
    #[tactic(auto, using(crate::proofs::Packings::writes))]
    fn write(&mut self, x: Slot, c: Cell) -> Result<(), PastTheEnd>
        ensures name { (self.new.codes.ghost_name ≡ self.old.codes.ghost_name) × (self.new.words.ghost_name ≡ self.old.words.ghost_name) }
        ensures value { result ≡ put_answer (cells_of_packed self.old) x.0 }
        ensures after { cells_of_packed self.new ≡ put (cells_of_packed self.old) x.0 c }
    {
        // By index, since `get_mut` does not tell what a list ends as.
        let i = x.0 as usize;
        if i >= self.codes.len() || i >= self.words.len() {
            return Err(PastTheEnd);
        }
        let pair = encode(c);
        self.codes[i] = pair.code;
        self.words[i] = pair.word;
        Ok(())
    }
}

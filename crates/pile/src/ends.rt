// A pile is made empty, and changes at its top.
ghost use Rattle.std.specs.Prelude.{◌≡◌, ◌+◌, ◌-◌, [], ◌∷◌, ◌++◌, drop, MatchResult, slice_set};
ghost use Rattle.std.specs.Option.{option_to_list};
ghost use Rattle.pile.specs.Piles.{held, depth, room, places_of, top_of, answer};

use super::{Full, Pile};

impl<'a, T: Copy> Pile<'a, T> {
    // An empty pile over the places lent; their elements stay until they are written over.
    pub fn over(places: &'a mut [T]) -> Pile<'a, T>
        ensures name { result.places.ghost_name ≡ places.entry.ghost_name }
        ensures held { held result ≡ [] }
        ensures len { depth result ≡ 0 }
        ensures places { places_of result ≡ places.old }
    {
        Pile { places, taken: 0 }
    }

    // Puts x on top; a full pile refuses it and stays as it was.
    pub fn push(&mut self, x: T) -> Result<(), Full>
        ensures name { self.new.places.ghost_name ≡ self.old.places.ghost_name }
        ensures value { result ≡ answer self.old }
        ensures held { MatchResult result (λ _. held self.new ≡ x ∷ held self.old) (λ _. held self.new ≡ held self.old) }
        ensures len { MatchResult result (λ _. depth self.new ≡ depth self.old + 1) (λ _. depth self.new ≡ depth self.old) }
        ensures places { MatchResult result (λ _. places_of self.new ≡ slice_set (places_of self.old) (depth self.old) x) (λ _. places_of self.new ≡ places_of self.old) }
        ensures room { room self.new ≡ room self.old }
    {
        // By its index, since `get_mut` does not tell what the places end as.
        if self.taken < self.places.len() {
            self.places[self.taken] = x;
            self.taken += 1;
            Ok(())
        } else {
            Err(Full)
        }
    }

    // Takes the top off.
    #[tactic(auto, using(crate::proofs::Stacks::below_top))]
    pub fn pop(&mut self) -> Option<T>
        ensures name { self.new.places.ghost_name ≡ self.old.places.ghost_name }
        ensures value { result ≡ top_of self.old }
        ensures held { held self.new ≡ drop 1 (held self.old) }
        ensures items { held self.old ≡ option_to_list result ++ held self.new }
        ensures len { depth self.new ≡ depth self.old - 1 }
        ensures places { places_of self.new ≡ places_of self.old }
        ensures room { room self.new ≡ room self.old }
    {
        let top = self.top()?;
        self.taken -= 1;
        Some(top)
    }
}

// What a pile holds, read without a change.
ghost use Rattle.std.specs.Prelude.{◌≡◌, ◌==◌};
ghost use Rattle.std.specs.List.{slice_get};
ghost use Rattle.pile.specs.Piles.{bottom_first, depth, top_of};

use super::Pile;

impl<'a, T: Copy> Pile<'a, T> {
    pub fn len(&self) -> usize
        ensures { result ≡ depth self.now }
    {
        self.taken
    }

    pub fn is_empty(&self) -> bool
        ensures { result ≡ (depth self.now == 0) }
    {
        self.len() == 0
    }

    // The elements, the bottom first.
    pub fn as_slice(&self) -> &[T]
        ensures { result.now ≡ bottom_first self.now }
    {
        &self.places[..self.taken]
    }

    // The element that `pop` would take.
    pub fn top(&self) -> Option<T>
        ensures { result ≡ top_of self.now }
    {
        self.as_slice().last().copied()
    }

    // The i-th element from the bottom.
    pub fn at(&self, i: usize) -> Option<T>
        ensures { result ≡ slice_get (bottom_first self.now) i }
    {
        self.as_slice().get(i).copied()
    }
}

// A stack over lent places, written once for every kind of element.
#![tactic(auto)]

mod ends;
mod fill;
mod looks;

ghost use Rattle.std.specs.Prelude.{◌≤◌, length};

// The first `taken` places hold its elements, the last of them on top. Lent, since nothing here allocates.
#[derive(Drop)]
pub struct Pile<'a, T> {
    places: &'a mut [T],
    taken: usize,
    ghost ok: { taken ≤ length places.now },
}

// No place is left for one element more.
#[derive(Clone, Copy, Debug, PartialEq, Eq, Drop)]
pub struct Full;

pub use fill::blank;

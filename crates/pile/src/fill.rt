ghost use Rattle.std.specs.Prelude.{◌≡◌};
ghost use Rattle.pile.specs.Piles.{blanked};

// Writes x into the first n places, or into all where there are fewer.
#[tactic(auto, using(crate::proofs::Stacks::fill_more))]
pub fn blank<T: Copy>(places: &mut [T], n: usize, x: T)
    ensures { places.new ≡ blanked n x places.old }
{
    let end = n.min(places.len());
    // Not `fill`, which asks for a clone that cannot fail: `Copy` does not promise that.
    for place in &mut places[..end] {
        *place = x;
    }
}

ghost use Rattle.std.specs.Prelude.{◌≡◌, slice_set};

// Replaces an element, if the list has that place.
pub(crate) fn put<T: Copy>(list: &mut [T], at: usize, x: T)
    ensures { list.new ≡ slice_set list.old at x }
{
    // By index, since a proof knows no element that is written through a slice's `get_mut`.
    if at < list.len() {
        list[at] = x;
    }
}

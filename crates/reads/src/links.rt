// The static links.
ghost use Rattle.std.specs.Prelude.{◌≡◌};
ghost use Rattle.machine.specs.Leaves.{link as static_link, base};

use crate::cells::{cell_at, place_in};
use sheet::stop::Stop;
use store::store::Store;

// The static link of the frame at x; a link leads below MP.
fn link_of<S: Store>(store: &S, x: u16, mp: u16) -> Result<u16, Stop>
    ensures { result ≡ static_link x mp (S.cells store.now) }
{
    let y = place_in(cell_at(store, u32::from(x) + 1))?;
    u16::try_from(y)
        .ok()
        .filter(|y| *y < mp)
        .ok_or(Stop::WrongMark)
}

// The frame that many static links up from MP.
pub fn base_of<S: Store>(store: &S, links: u16, mp: u16) -> Result<u16, Stop>
    ensures { result ≡ base links mp mp (S.cells store.now) }
{
    let mut x = mp;
    for _ in 0..links {
        x = link_of(store, x, mp)?;
    }
    Ok(x)
}

// A run in slices.
use admit::Passed;
use anyhow::anyhow;
use host::host::Host;
use run::answer::{Finish, Report};
use run::run::begin;
use store::store::Store;

// The steps made, how the run came to its end, and the registers.
#[derive(Clone, Copy, Drop)]
pub(crate) struct Ended {
    pub(crate) count: u64,
    pub(crate) finish: Finish,
    pub(crate) report: Report,
}

// At most so many slices: enough for every yard here.
const MOST_SLICES: u32 = 100;

// Goes in slices of `cut` steps until something but the end of a slice ends it.
pub(crate) fn drive<'a, S: Store, H: Host>(
    passed: Passed<'a>,
    store: &mut S,
    host: &mut H,
    cut: u32,
) -> anyhow::Result<Ended> {
    // not `context`: what is refused holds the passed table, so it is no Error
    let mut run = begin(passed, store).map_err(|_| anyhow!("the store is too short or too long"))?;
    let mut count = 0u64;
    let mut finish = Finish::Spent;
    for _ in 0..MOST_SLICES {
        let went = run.go(store, host, cut);
        count = count.saturating_add(u64::from(went.count));
        finish = went.finish;
        if !matches!(finish, Finish::Spent) {
            break;
        }
    }
    Ok(Ended {
        count,
        finish,
        report: run.report(),
    })
}

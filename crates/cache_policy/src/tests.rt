//! The decision on its happy path.
use super::*;
use cache_layout::Found;
use res_base::List;
use std::alloc::AllocError;

#[test]
fn decisions(rt: HostRuntime) -> Result<(), AllocError> {
    let checks = List::new(rt.alloc());
    for (mode, wanted) in [
        (Mode::Missing, Decision::Use),
        (Mode::Offline, Decision::Use),
        (Mode::Refresh, Decision::Ask),
    ] {
        let decision = decide(mode, true, &Found::Gone(1000), &checks, 87400, 86400);
        assert_eq!(rt; decision, wanted);
    }
    Ok(())
}

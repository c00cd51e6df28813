//! How a resolution ends.
use super::settled::Settled;
use pom_build::BuildFault;
use reconcile_rules::{Clash, Request};
use res_base::{Coord, List, Module, Reason};

/// A module whose requests do not go together.
#[derive(Drop)]
pub struct ClashRow {
    pub module: Module,
    pub clash: Clash,
    pub requests: List<Request>,
}

/// Why a project that is wanted is not there.
#[derive(Drop)]
pub enum ProjectFault {
    /// No repository has it: why, for each in the listed order.
    NotFound(List<Reason>),
    Refused(BuildFault),
}

/// A project that is wanted and not there.
#[derive(Drop)]
pub struct FaultRow {
    pub coord: Coord,
    pub fault: ProjectFault,
}

/// How a resolution ends.
#[derive(Drop)]
pub enum Verdict {
    Settled(Settled),
    /// In module order.
    Clashes(List<ClashRow>),
    /// By module, and then by the bytes of the version.
    Failed(List<FaultRow>),
    /// After so many rounds there were still changes.
    Unsettled(u32),
}

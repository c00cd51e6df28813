//! Versions, choices, projects and rounds, with ample memory.
#![tactic(auto)]

#[cfg(test)]
mod choices;
#[cfg(test)]
mod looks;
#[cfg(test)]
mod projects;
#[cfg(test)]
mod rounds;
#[cfg(test)]
mod versions;

//! A repository that is made up: the project files of a generated world, for runs that anyone can
//! repeat.
#![tactic(auto)]

mod draws;
mod projects;
#[cfg(test)]
mod tests;
mod world;

pub use world::make_world;

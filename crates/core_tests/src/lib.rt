//! Sessions of the core: small ones in all orders of arrival, and long ones at random.
#![tactic(auto)]

#[cfg(test)]
mod book;
#[cfg(test)]
mod parts;
#[cfg(test)]
mod projects;
#[cfg(test)]
mod random;
#[cfg(test)]
mod sessions;

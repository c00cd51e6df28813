//! What is printed of verdicts and of refusals, with ample memory.
#![tactic(auto)]

#[cfg(test)]
mod refusals;
#[cfg(test)]
mod verdicts;

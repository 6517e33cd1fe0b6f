//! Worked cases of the machine, and threads that use it.
#![tactic(auto)]

#[cfg(test)]
mod tests;

//! Worked cases of the call table, and threads that use it.
#![tactic(auto)]

#[cfg(test)]
mod tests;

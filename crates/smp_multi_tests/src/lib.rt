//! Worked cases of the stop table, and threads that use it.
#![tactic(auto)]

#[cfg(test)]
mod tests;

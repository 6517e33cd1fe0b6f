//! Worked cases of the call families, threads that use them, and a user's proof.
#![tactic(auto)]

#[cfg(test)]
mod tests;

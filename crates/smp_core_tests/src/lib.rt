//! Worked cases of masks, label words, lists kept in little and start lines, of the pure machine, and of the search of its orders:
//! merged moves, worked explorations, and texts with faults.
#![tactic(auto)]

#[cfg(test)]
mod tests;

//! Worked scripts, replayed and run, byte for byte, failing devices, refused growths, what the program `smp_runner` answers, and the
//! command line of `smp`.
#![tactic(auto)]

#[cfg(test)]
mod tests;

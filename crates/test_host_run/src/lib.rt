//! Tests of host runs: a script, and then frames by two workers.
#![tactic(auto)]

#[cfg(test)]
mod printing;

//! Tests of the lock: counters by one thread and by several, by calls and by visits, a state of any make, and a worker that
//! keeps its answers.
#![tactic(auto)]

#[cfg(test)]
mod counters;
#[cfg(test)]
mod shelf;
#[cfg(test)]
mod worker;

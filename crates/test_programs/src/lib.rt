//! Tests of programs that cases of `case_programs` and scripts can't say: replies that no map gives, programs that call
//! each other, bytes that are decoded and encoded again, and limits.
#![tactic(auto)]

#[cfg(test)]
mod numbers;
#[cfg(test)]
mod programs;
#[cfg(test)]
mod replies;
#[cfg(test)]
mod runs;
#[cfg(test)]
mod spellings;
#[cfg(test)]
mod verifier;

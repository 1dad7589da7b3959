//! Tests of the crates at the bottom: what a contract leaves to its definitions at the edges, and each public function on
//! its happy path.
#![tactic(auto)]

#[cfg(test)]
mod boxes;
#[cfg(test)]
mod instructions;
#[cfg(test)]
mod roots;
#[cfg(test)]
mod values;
#[cfg(test)]
mod words;

//! Tests of the kinds of maps by their calls: a kind of a caller's own, and exchanges that do not fit, and
//! thousands of changes that are compared with those of a plain map.
#![tactic(auto)]

#[cfg(test)]
mod beside;
#[cfg(test)]
mod fits;
#[cfg(test)]
mod own;
#[cfg(test)]
mod plain;

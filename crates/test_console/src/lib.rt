//! Tests of the console beside its case files: work, boxes that lack, writers that fail, and texts.
#![tactic(auto)]

#[cfg(test)]
mod tests;

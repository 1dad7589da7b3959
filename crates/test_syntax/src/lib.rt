//! Tests of the grammar and of what is read beside the case files: the maps that a script needs, the files that it names,
//! commands compared, faults as text, and readers that fail.
#![tactic(auto)]

#[cfg(test)]
mod commands;
#[cfg(test)]
mod files;
#[cfg(test)]
mod needs;
#[cfg(test)]
mod readers;

//! The host of a case: its devices, and how far its book may go.

use anyhow::{Context, Result, bail};
use host_words::Word;
use journal_model::Limits;
use std::alloc::Global;

/// What host a case runs on.
#[derive(Clone, Copy)]
pub struct Setting<'a> {
    /// The names of the devices, with blanks between them.
    pub devices: &'a str,
    pub limits: Limits,
}

/// What `bpfcon` runs on, if a case says nothing.
pub const USUAL: Setting<'static> = Setting {
    devices: "eth0 eth1",
    limits: Limits {
        journal: 65_536,
        budget: 67_108_864,
        last_id: u32::MAX,
        last_serial: u64::MAX,
    },
};

// Sets the limit of this name.
fn set(limits: &mut Limits, name: &str, number: &str) -> Result<()> {
    let Ok(number) = number.parse::<u64>() else {
        bail!("{number} is no number");
    };
    if name == "journal" {
        limits.journal = number;
    } else if name == "budget" {
        limits.budget = number;
    } else if name == "last_id" {
        limits.last_id = u32::try_from(number).context("an id is less than 2^32")?;
    } else if name == "last_serial" {
        limits.last_serial = number;
    } else {
        bail!("a limit is journal, budget, last_id or last_serial");
    }
    Ok(())
}

// Appends the names that stand in a text.
fn push_names(alloc: Global, names: &mut Vec<Word>, text: &str) -> Result<()> {
    for name in text.split_whitespace() {
        let name = Word::new(alloc, name.as_bytes())?;
        names.push(name)?;
    }
    Ok(())
}

impl Setting<'_> {
    /// Sets the limits that words such as `journal=2` name.
    pub fn limit(&mut self, words: &str) -> Result<()> {
        for word in words.split_whitespace() {
            let Some((name, number)) = word.split_once('=') else {
                bail!("{word} is not NAME=NUMBER");
            };
            set(&mut self.limits, name, number)?;
        }
        Ok(())
    }

    /// The names of the devices, one each.
    pub fn names(&self, alloc: Global) -> Result<Vec<Word>> {
        let mut names = Vec::new(alloc);
        match push_names(alloc, &mut names, self.devices) {
            Ok(()) => Ok(names),
            Err(error) => Err(error),
        }
    }
}

//! The columns of terms, and their names of devices in one text.

ghost use Rattle.std.specs.Prelude.{◌≡◌, ◌++◌, ◌∷◌, [], flat_map, IfOk, OnOk};
ghost use Rattle.sqlite.specs.Values.{bound};
ghost use Rattle.kept_ledger.specs.TermsRow.{joined, names_in, terms_row};
ghost use Rattle.kept_ledger.specs.TermsRead.{IsRead};

use crate::lent::number;
use host_words::{NoMemory, Word};
use journal_model::Limits;
use sqlite::types::ValueRef;
use std::alloc::Global;

/// How the rows of the two tables are written here.
pub const FORMAT: u64 = 1;

// Adds a name after a blank.
fn push_name(text: &mut Vec<u8>, name: &Word) -> Result<(), NoMemory>
    ensures { OnOk result (text.new.items ≡ text.old.items ++ 32 ∷ name.now) }
{
    text.push(b' ')?;
    text.extend_from_slice(name.as_slice())?;
    Ok(())
}

// A name and others after it in one text.
fn joined_from(alloc: Global, first: &Word, others: &[Word]) -> Result<Vec<u8>, NoMemory>
    ensures { IfOk result (λ text. text.items ≡ first.now ++ flat_map (λ name. 32 ∷ name) others.now) }
{
    let mut text = Vec::from_slice(alloc, first.as_slice())?;
    'names: for name in others {
        push_name(&mut text, name)?;
    }
    Ok(text)
}

/// Names in one text, with a blank between each and the next.
pub(crate) fn joined(alloc: Global, names: &[Word]) -> Result<Vec<u8>, NoMemory>
    ensures { IfOk result (λ text. text.items ≡ joined names.now) }
{
    match names.split_first() {
        Some((first, others)) => joined_from(alloc, first, others),
        None => Ok(Vec::new(alloc)),
    }
}

// Adds a name of these bytes.
fn push_word(alloc: Global, names: &mut Vec<Word>, bytes: &[u8]) -> Result<(), NoMemory>
    ensures { OnOk result (names.new.items ≡ names.old.items ++ bytes.now ∷ []) }
{
    let name = Word::new(alloc, bytes)?;
    names.push(name)?;
    Ok(())
}

// Adds a byte to the name that is being read, or ends that name at a blank.
fn read_byte(
    alloc: Global,
    names: &mut Vec<Word>,
    name: &mut Vec<u8>,
    byte: u8,
) -> Result<(), NoMemory>
    ensures { OnOk result (IsRead names.old.items name.old.items byte names.new.items name.new.items) }
{
    if byte == b' ' {
        push_word(alloc, names, name.as_slice())?;
        name.clear();
    } else {
        name.push(byte)?;
    }
    Ok(())
}

/// The names that the blanks of a text set apart.
pub(crate) fn names_in(alloc: Global, text: &[u8]) -> Result<Vec<Word>, NoMemory>
    ensures { IfOk result (λ names. names.items ≡ names_in text.now) }
{
    let mut names = Vec::new(alloc);
    let mut name = Vec::new(alloc);
    let mut rest = text;
    while let Some((byte, behind)) = rest.split_first() {
        read_byte(alloc, &mut names, &mut name, *byte)?;
        rest = behind;
    }
    push_word(alloc, &mut names, name.as_slice())?;
    Ok(names)
}

/// The columns of limits and of the text of devices, in the order of the table.
pub(crate) fn terms_params<'a>(limits: &Limits, devices: &'a [u8]) -> [ValueRef<'a>; 6]
    ensures { bound result ≡ terms_row limits.now devices.now }
{
    let format = number(Some(FORMAT));
    let journal = number(Some(limits.journal));
    let budget = number(Some(limits.budget));
    let last_id = number(Some(limits.last_id as u64));
    let last_serial = number(Some(limits.last_serial));
    let devices = ValueRef::Text(devices);
    [format, journal, budget, last_id, last_serial, devices]
}

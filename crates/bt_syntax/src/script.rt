//! A script, and the maps that it makes.

ghost use Rattle.std.specs.Prelude.{◌≡◌, ◌∷◌, ◌++◌, IfOk, MatchOption, codes};
ghost use Rattle.std.specs.Option.{option_and_then, option_to_list};
ghost use Rattle.console_operand.specs.Word.{words};
ghost use Rattle.console_operand.specs.Automaton.{read};
ghost use Rattle.console_map_syntax.specs.CreateSteps.{create_step, create_finish};
ghost use Rattle.console_operand.specs.Line.{lines_of};
ghost use Rattle.console_map_syntax.specs.Made.{map_made};
ghost use Rattle.bt_syntax.specs.Needs.{MakesNoMap, need_of, needs_of, needs_at, needs_with};
ghost use Rattle.bt_syntax.specs.Files.{batch_at};
ghost use Rattle.bt_syntax.specs.Steps.{line_read};

use crate::NoMemory;
use crate::files::{FileText, batch_path, file_at};
use crate::parse::LINE_MAX;
use bt_mapkind::MapAttr;
use console_map_syntax::CreateState;
use console_operand::{behind_word, first_line, first_word};
use std::alloc::Global;

/// A script with the files that it names.
#[derive(Debug, Drop)]
pub struct Script {
    pub text: Vec<u8>,
    /// The first of a path counts.
    pub files: Vec<FileText>,
}

/// The good attributes that the words after `map create` give. It takes no memory.
#[inline(never)]
fn attr_behind_create(line: &[u8]) -> Option<MapAttr>
    ensures { result ≡ option_and_then map_made (read create_step create_finish CreateState.Path (words line.now)) }
{
    let mut state = CreateState::Path;
    let mut rest = line;
    while let Some((word, after)) = first_word(rest) {
        rest = after;
        state = state.after(word)?;
    }
    state.good_attr()
}

/// What comes after `map create`, if a line begins so.
fn behind_map_create(line: &[u8]) -> Option<&[u8]>
    ensures { MatchOption result (MakesNoMap (words line.now)) (λ rest. words line.now ≡ codes "map" ∷ codes "create" ∷ words rest.now) }
{
    behind_word(behind_word(line, b"map")?, b"create")
}

/// The attributes of the map that a line makes, if they are good: those that [`needs`] lists for it. It takes no
/// memory.
pub fn need_of(line: &[u8]) -> Option<MapAttr>
    ensures { result ≡ need_of line.now }
{
    if line.len() > LINE_MAX {
        return None;
    }
    attr_behind_create(behind_map_create(line)?)
}

// Adds the attributes of the map that a line makes, if it makes one.
fn push_need(attrs: &mut Vec<MapAttr>, line: &[u8]) -> Result<(), NoMemory>
    ensures { IfOk result (λ _. attrs.new.items ≡ attrs.old.items ++ option_to_list (need_of line.now)) }
{
    if let Some(attr) = need_of(line) {
        attrs.push(attr)?;
    }
    Ok(())
}

// Adds the attributes of the maps that the lines of a text make.
fn push_needs(attrs: &mut Vec<MapAttr>, text: &[u8]) -> Result<(), NoMemory>
    ensures { IfOk result (λ _. attrs.new.items ≡ attrs.old.items ++ needs_of (lines_of text.now)) }
{
    let mut rest = text;
    while !rest.is_empty() {
        let (line, after) = first_line(rest);
        rest = after;
        push_need(attrs, line)?;
    }
    Ok(())
}

// Adds the attributes of the maps that a line makes, which may run a batch.
fn push_needs_at(attrs: &mut Vec<MapAttr>, files: &[FileText], line: &[u8]) -> Result<(), NoMemory>
    ensures { IfOk result (λ _. attrs.new.items ≡ attrs.old.items ++ needs_at (batch_at files.now (line_read line.now)) line.now) }
{
    match batch_path(line) {
        Some(path) => match file_at(files, path) {
            Some(text) => push_needs(attrs, text),
            None => Ok(()),
        },
        None => push_need(attrs, line),
    }
}

/// The attributes of the maps that the lines of a script make, one for each well-formed `map create` with good
/// attributes, in the order of the lines, with those of a batch in place of its line.
pub fn needs(alloc: Global, script: &Script) -> Result<Vec<MapAttr>, NoMemory>
    ensures { IfOk result (λ attrs. attrs.items ≡ needs_with script.now.files.items (lines_of script.now.text.items)) }
{
    let mut attrs = Vec::new(alloc);
    let mut rest = script.text.as_slice();
    while !rest.is_empty() {
        let (line, after) = first_line(rest);
        rest = after;
        push_needs_at(&mut attrs, script.files.as_slice(), line)?;
    }
    Ok(attrs)
}

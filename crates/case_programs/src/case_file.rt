//! A file of programs, in the form of bpf_conformance's vectors.
//!
//! | line | what follows it |
//! |---|---|
//! | `-- case NAME` | the sections of this case |
//! | `-- raw` | the program as words of 64 bits, `0x..` |
//! | `-- hex` | the program's bytes in hexadecimal |
//! | `-- mem` | the bytes of the frame, in hexadecimal |
//! | `-- maps` | maps that the program may name: `ID TYPE KEY VALUE ENTRIES`, two at most |
//! | `-- result` | what R0 is at EXIT, `0x..`, or how the run ends, as `XDP_PASS 2` or `XDP_ABORTED 0 OutOfRange` |
//! | `-- error` | why the program is refused, as `decode BadField(0)` or `verify Uninit(3, R3)` |
//!
//! A line that begins with `#` is a comment, and an empty one is nothing.

use crate::program::{End, Setting, end_of, number_of};
use anyhow::{Context, Result, bail};
use bt_mapkind::{MapAttr, MapType};
use std::alloc::Global;

/// A program, what it is run on and what is to come of it.
#[derive(Drop)]
pub struct Case<'a> {
    pub name: &'a str,
    /// The number of the line in the file at which it begins, from 1.
    pub line: usize,
    program: Vec<u8>,
    frame: Vec<u8>,
    maps: [Option<(u32, MapAttr)>; 2],
    pub wanted: &'a str,
}

/// What the lines of a section are.
#[derive(Clone, Copy)]
enum Section {
    Raw,
    Hex,
    Memory,
    Maps,
    Wanted,
}

impl Case<'_> {
    /// What comes of it, in the words of the file.
    pub fn run(&self, alloc: Global) -> Result<String> {
        let setting = Setting {
            maps: self.maps,
            frame: &self.frame,
        };
        let Some(digits) = self.wanted.strip_prefix("0x") else {
            return Ok(end_of(alloc, &self.program, &setting)?.to_string(alloc)?);
        };
        let wanted = u64::from_str_radix(digits, 16)?;
        match number_of(alloc, &self.program, &setting, wanted)? {
            Ok(number) => Ok(format!(in alloc; "{number:#x}")?),
            Err(end) => Ok(end.to_string(alloc)?),
        }
    }
}

fn section_of(word: &str) -> Result<Section> {
    Ok(match word {
        "raw" => Section::Raw,
        "hex" => Section::Hex,
        "mem" => Section::Memory,
        "maps" => Section::Maps,
        "result" | "error" => Section::Wanted,
        _ => bail!("{word} is no section"),
    })
}

fn map_type(word: &str) -> Result<MapType> {
    Ok(match word {
        "array" => MapType::Array,
        "hash" => MapType::Hash,
        "lpm_trie" => MapType::LpmTrie,
        "queue" => MapType::Queue,
        "stack" => MapType::Stack,
        "array_of_maps" => MapType::ArrayOfMaps,
        "prog_array" => MapType::ProgArray,
        "hash_of_maps" => MapType::HashOfMaps,
        _ => bail!("{word} is no type of a map"),
    })
}

// The map that a line names.
fn map_of(text: &str) -> Result<(u32, MapAttr)> {
    let mut words = text.split_whitespace();
    let mut number = || words.next();
    let (Some(id), Some(kind), Some(key), Some(value), Some(entries)) = (
        number(),
        number(),
        number(),
        number(),
        number(),
    ) else {
        bail!("a map is ID TYPE KEY VALUE ENTRIES");
    };
    let attr = MapAttr {
        kind: map_type(kind)?,
        key_size: key.parse()?,
        value_size: value.parse()?,
        max_entries: entries.parse()?,
        flags: 0,
    };
    Ok((id.parse()?, attr))
}

// Appends the bytes of a line in hexadecimal.
fn push_hex(bytes: &mut Vec<u8>, alloc: Global, text: &str) -> Result<()> {
    for word in text.split_whitespace() {
        bytes.extend_from_slice(&hex::decode(alloc, word)?)?;
    }
    Ok(())
}

// Appends the bytes of words of 64 bits.
fn push_raw(bytes: &mut Vec<u8>, text: &str) -> Result<()> {
    for word in text.split_whitespace() {
        let digits = word.strip_prefix("0x").context("a word is 0x..")?;
        let number = u64::from_str_radix(digits, 16)?;
        bytes.extend_from_slice(&number.to_le_bytes())?;
    }
    Ok(())
}

impl<'a> Case<'a> {
    fn new(alloc: Global, name: &'a str, line: usize) -> Case<'a> {
        Case {
            name,
            line,
            program: Vec::new(alloc),
            frame: Vec::new(alloc),
            maps: [None, None],
            wanted: "",
        }
    }

    fn add_map(&mut self, map: (u32, MapAttr)) -> Result<()> {
        if self.maps[0].is_none() {
            self.maps[0] = Some(map);
        } else if self.maps[1].is_none() {
            self.maps[1] = Some(map);
        } else {
            bail!("more than two maps");
        }
        Ok(())
    }

    // Takes a line of a section.
    fn take(&mut self, alloc: Global, section: Section, text: &'a str) -> Result<()> {
        match section {
            Section::Raw => push_raw(&mut self.program, text),
            Section::Hex => push_hex(&mut self.program, alloc, text),
            Section::Memory => push_hex(&mut self.frame, alloc, text),
            Section::Maps => self.add_map(map_of(text)?),
            Section::Wanted => {
                self.wanted = text;
                Ok(())
            }
        }
    }
}

/// What was read of a file.
#[derive(Drop)]
struct Reader<'a> {
    cases: Vec<Case<'a>>,
    section: Option<Section>,
}

impl<'a> Reader<'a> {
    fn take(&mut self, alloc: Global, line: usize, text: &'a str) -> Result<()> {
        if let Some(name) = text.strip_prefix("-- case ") {
            self.cases.push(Case::new(alloc, name, line))?;
            self.section = None;
        } else if let Some(word) = text.strip_prefix("-- ") {
            self.section = Some(section_of(word)?);
        } else {
            let section = self.section.context("this line is of no section")?;
            let case = self.cases.last_mut().context("no case has begun")?;
            case.take(alloc, section, text)?;
        }
        Ok(())
    }
}

/// The cases of a file's text, in their order.
pub fn cases_of(alloc: Global, text: &str) -> Result<Vec<Case<'_>>> {
    let mut reader = Reader {
        cases: Vec::new(alloc),
        section: None,
    };
    let mut number: usize = 0;
    for line in text.lines() {
        number = number.saturating_add(1);
        if !line.is_empty() && !line.starts_with('#') {
            reader
                .take(alloc, number, line)
                .context(format_args!("line {number}"))?;
        }
    }
    Ok(reader.cases)
}

//! What the world knows of a map beside its box, and of a program.

use crate::code::Code;
use bt_mapkind::MapAttr;
use host_words::Word;

/// The name of a map, whether the console may write it no more, whether it is live, and of an outer map the attributes
/// of its inner maps.
#[derive(Debug, Drop)]
pub struct MapEntry {
    pub name: Word,
    pub frozen: bool,
    pub live: bool,
    pub template: Option<MapAttr>,
}

/// A program: its code, its name, and whether it is live.
#[derive(Debug, Drop)]
pub struct HostProg {
    pub code: Code,
    pub name: Word,
    pub live: bool,
}

//! Names and paths that are none.

ghost use Rattle.std.specs.Prelude.{◌≡◌, true, ◌↔◌, IsNone, IfSome};
ghost use Rattle.host_words.specs.Spelling.{is_name, is_path};
ghost use Rattle.console_hint.specs.Spellings.{IsNameFault, IsPathFault};

use host_words::{is_name, is_path};
use std::fmt;

/// What is wrong with a name.
#[derive(Clone, Copy)]
pub enum NameFault {
    /// It has so many bytes, above 15.
    TooLong(usize),
    /// It has a byte that no name has, or none at all.
    Letters,
}

/// What is wrong with the path of a pin.
#[derive(Clone, Copy)]
pub enum PathFault {
    /// It does not begin with `/`.
    NoSlash,
    /// It has so many bytes, and not 2 to 255.
    Length(usize),
    /// It has a byte that no path has.
    Letters,
}

/// What is wrong with a name, if it is none.
pub fn name_fault(name: &[u8]) -> Option<NameFault>
    ensures none { IsNone result ↔ (is_name name.now ≡ true) }
    ensures holds { IfSome result (IsNameFault name.now) }
{
    if is_name(name) {
        None
    } else if name.len() > 15 {
        Some(NameFault::TooLong(name.len()))
    } else {
        Some(NameFault::Letters)
    }
}

/// What is wrong with the path of a pin, if it is none.
pub fn path_fault(path: &[u8]) -> Option<PathFault>
    ensures none { IsNone result ↔ (is_path path.now ≡ true) }
    ensures holds { IfSome result (IsPathFault path.now) }
{
    if is_path(path) {
        None
    } else if !path.starts_with(b"/") {
        Some(PathFault::NoSlash)
    } else if !(2..=255).contains(&path.len()) {
        Some(PathFault::Length(path.len()))
    } else {
        Some(PathFault::Letters)
    }
}

impl fmt::Display for NameFault {
    fn fmt<W: fmt::Write>(&self, f: &mut fmt::Formatter<W>) -> fmt::Result {
        match self {
            NameFault::TooLong(given) => write!(f, "name has {given} bytes, at most 15"),
            NameFault::Letters => f.write_str("a name has only A-Z a-z 0-9 _ . -"),
        }
    }
}

impl fmt::Display for PathFault {
    fn fmt<W: fmt::Write>(&self, f: &mut fmt::Formatter<W>) -> fmt::Result {
        match self {
            PathFault::NoSlash => f.write_str("the path of a pin begins with /"),
            PathFault::Length(given) => write!(f, "path has {given} bytes, 2 to 255 are good"),
            PathFault::Letters => f.write_str("the path of a pin has only A-Z a-z 0-9 _ . - and /"),
        }
    }
}

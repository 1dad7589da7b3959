//! Where a line stands that was refused.

ghost use Rattle.std.specs.Prelude.{◌≡◌};
ghost use Rattle.std.specs.Option.{option_map};
ghost use Rattle.console_hint.specs.Places.{place_behind, refused_behind};

use bt_syntax::{FileText, batch_path, file_at, first_line};
use console_operand::first_word;

/// A line where it stands.
#[derive(Clone, Copy)]
pub struct Place<'a> {
    /// What the script is called that has the line, or the path of the batch.
    pub file: &'a [u8],
    /// The number of the line, from 1.
    pub number: u64,
    pub line: &'a [u8],
    /// What else may stand at the front of a line there, as `quit` of a dialogue; nothing if commands stand alone.
    pub beside: &'static str,
}

// The line of a batch after so many that have words; none if there are not so many.
fn line_behind<'a>(file: &'a [u8], text: &'a [u8], accepted: u64) -> Option<Place<'a>>
    ensures { option_map (λ place. (place.file.now, place.number, place.line.now)) result ≡ place_behind file.now accepted text.now }
{
    let mut rest = text;
    let mut number = 0u64;
    let mut left = accepted;
    while !rest.is_empty() {
        let (line, after) = first_line(rest);
        rest = after;
        number = number.saturating_add(1);
        if first_word(line).is_none() {
            continue;
        }
        if left == 0 {
            return Some(Place {
                file,
                number,
                line,
                beside: "",
            });
        }
        left -= 1;
    }
    None
}

impl<'a> Place<'a> {
    /// The line that was refused, if this line did so many others: itself, or a line of the batch that it runs.
    pub fn refused_behind(self, files: &'a [FileText], accepted: u64) -> Place<'a>
        ensures { (result.file.now, result.number, result.line.now) ≡
            refused_behind files.now accepted (self.entry.file.now, self.entry.number, self.entry.line.now) }
    {
        let Some(path) = batch_path(self.line) else {
            return self;
        };
        match file_at(files, path) {
            Some(text) => line_behind(path, text, accepted).unwrap_or(self),
            None => self,
        }
    }
}

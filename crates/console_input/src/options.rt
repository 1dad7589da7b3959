//! The options of a book, which stand before the first word.

ghost use Rattle.std.specs.Prelude.{◌≡◌, is_some};
ghost use Rattle.std.specs.Option.{option_map};
ghost use Rattle.std.specs.Vec.Iter.{into_iter_items};
ghost use Rattle.console_operand.specs.Word.{spelled_by};
ghost use Rattle.console_input.specs.Options.{option_word, book_options, option_of, seconds_of, no_options, with_option, options_in, parts};

use crate::live::number_between;
use std::vec::IntoIter;

/// For how many seconds a book that is in use is waited for at most: a day.
pub const MOST_WAIT: u32 = 86_400;

/// An option of a book.
#[derive(Clone, Copy)]
pub enum BookOption {
    /// `-b FILE`.
    File,
    /// `-w SECONDS`.
    Wait,
}

/// The options of a book that are given.
#[derive(Drop)]
pub struct BookOptions {
    /// The file that keeps it.
    pub file: Option<String>,
    /// For how many seconds to wait if the file is in use, up to [`MOST_WAIT`].
    pub wait: Option<u32>,
}

/// Options, the first word after them, and the words after that.
#[derive(Drop)]
pub struct Opted {
    pub options: BookOptions,
    pub verb: String,
    pub words: IntoIter<String>,
}

impl BookOption {
    // The option that a word names.
    fn of(word: &str) -> Option<BookOption>
        ensures { result ≡ spelled_by option_word book_options word.now }
    {
        match word {
            "-b" => Some(BookOption::File),
            "-w" => Some(BookOption::Wait),
            _ => None,
        }
    }
}

impl BookOptions {
    // No option is given.
    fn none() -> BookOptions
        ensures { result ≡ no_options }
    {
        BookOptions {
            file: None,
            wait: None,
        }
    }

    // With an option that is not given yet, of the value that a word spells.
    fn with(mut self, option: BookOption, word: String) -> Option<BookOptions>
        ensures { result ≡ with_option self option word }
    {
        match option {
            BookOption::File => {
                if self.file.is_some() {
                    return None;
                }
                self.file = Some(word);
            }
            BookOption::Wait => {
                if self.wait.is_some() {
                    return None;
                }
                self.wait = Some(number_between(0, MOST_WAIT, word)?);
            }
        }
        Some(self)
    }
}

/// Whether a word is an option of a book.
pub(crate) fn is_option(word: &str) -> bool
    ensures { result ≡ is_some (spelled_by option_word book_options word.now) }
{
    BookOption::of(word).is_some()
}

/// The options at the front of these words, each at most once and with its value after it, and the words after them, of which
/// there is one at least. `None` if they are no such words.
pub(crate) fn take_options(word: String, words: IntoIter<String>) -> Option<Opted>
    ensures { option_map parts result ≡ options_in no_options word (into_iter_items words) }
{
    let mut options = BookOptions::none();
    let (mut verb, mut words) = (word, words);
    'options: while let Some(option) = BookOption::of(verb.as_str()) {
        let value = words.next()?;
        options = options.with(option, value)?;
        verb = words.next()?;
    }
    Some(Opted {
        options,
        verb,
        words,
    })
}

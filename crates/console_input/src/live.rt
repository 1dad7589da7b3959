//! What `live` asks: how frames are served beside the lines of standard input, a script, and the frames.

ghost use Rattle.std.specs.Prelude.{◌≡◌, string_bytes};
ghost use Rattle.std.specs.Vec.Iter.{into_iter_items};
ghost use Rattle.console_operand.specs.Word.{spelled_by};
ghost use Rattle.console_input.specs.Live.{option_word, live_options, number_between, device_of, none_given, is_given, has_sizes, set_to, with_option, options_of, with_files, asked_live};

use console_operand::number::number_of;
use host_words::is_name;
use std::vec::IntoIter;

/// How many threads serve the frames of a live host at most.
pub const MOST_WORKERS: u32 = 64;

/// How many frames a second a live host is told to serve at most, if it has a limit.
pub const MOST_RATE: u32 = 1_000_000_000;

/// How many passes over its frames a live host is told to make at most, if they have an end.
pub const MOST_PASSES: u32 = 4_294_967_295;

/// How many moments the journal of a live host keeps at most.
pub const MOST_MOMENTS: u32 = 1_000_000;

/// How a live host serves frames.
#[derive(Drop)]
pub struct LiveOptions {
    /// How many threads serve frames: 1 to [`MOST_WORKERS`].
    pub workers: u32,
    /// How many frames a second they serve at most, all together, up to [`MOST_RATE`]; 0 if there is no limit.
    pub rate: u32,
    /// How many passes they make over the frames, 1 to [`MOST_PASSES`]; `None` if they go on for ever.
    pub repeat: Option<u32>,
    /// How many moments the journal keeps: 1 to [`MOST_MOMENTS`].
    pub journal: u32,
    /// The device at which the frames of a capture come in, by a good name; `None` if it is eth0.
    pub device: Option<String>,
}

/// What a live host is made of.
#[derive(Drop)]
pub struct Live {
    pub options: LiveOptions,
    /// Whether how many workers or how many moments was given: a host on the book in a file has its own of both.
    pub sizes_given: bool,
    /// The path of the script that runs first.
    pub setup: String,
    /// The path of the frames that are served then.
    pub frames: String,
}

/// An option of `live`.
#[derive(Clone, Copy)]
pub enum LiveOption {
    Workers,
    Rate,
    Repeat,
    Journal,
    Device,
}

impl LiveOption {
    // The option that a word names.
    fn of(word: &str) -> Option<LiveOption>
        ensures { result ≡ spelled_by option_word live_options word.now }
    {
        match word {
            "--workers" => Some(LiveOption::Workers),
            "--rate" => Some(LiveOption::Rate),
            "--repeat" => Some(LiveOption::Repeat),
            "--journal" => Some(LiveOption::Journal),
            "--dev" => Some(LiveOption::Device),
            _ => None,
        }
    }
}

/// The number that a word spells, if it lies between these two or is one of them.
pub(crate) fn number_between(least: u32, most: u32, word: String) -> Option<u32>
    ensures { result ≡ number_between least most (string_bytes word) }
{
    let number = number_of(word.as_bytes())?;
    if least <= number && number <= most {
        Some(number)
    } else {
        None
    }
}

// The word, if it may name a device.
fn device_of(word: String) -> Option<String>
    ensures { result ≡ device_of word }
{
    if is_name(word.as_bytes()) {
        Some(word)
    } else {
        None
    }
}

/// The options that are given so far.
#[derive(Drop)]
pub struct Given {
    pub workers: Option<u32>,
    pub rate: Option<u32>,
    pub repeat: Option<u32>,
    pub journal: Option<u32>,
    pub device: Option<String>,
}

impl Given {
    fn none() -> Given
        ensures { result ≡ none_given }
    {
        Given {
            workers: None,
            rate: None,
            repeat: None,
            journal: None,
            device: None,
        }
    }

    fn has(&self, option: LiveOption) -> bool
        ensures { result ≡ is_given self.now option }
    {
        match option {
            LiveOption::Workers => self.workers.is_some(),
            LiveOption::Rate => self.rate.is_some(),
            LiveOption::Repeat => self.repeat.is_some(),
            LiveOption::Journal => self.journal.is_some(),
            LiveOption::Device => self.device.is_some(),
        }
    }

    fn has_sizes(&self) -> bool
        ensures { result ≡ has_sizes self.now }
    {
        self.workers.is_some() || self.journal.is_some()
    }

    // With an option of the value that a word spells.
    fn set(mut self, option: LiveOption, word: String) -> Option<Given>
        ensures { result ≡ set_to self option word }
    {
        match option {
            LiveOption::Workers => self.workers = Some(number_between(1, MOST_WORKERS, word)?),
            LiveOption::Rate => self.rate = Some(number_between(0, MOST_RATE, word)?),
            LiveOption::Repeat => self.repeat = Some(number_between(1, MOST_PASSES, word)?),
            LiveOption::Journal => self.journal = Some(number_between(1, MOST_MOMENTS, word)?),
            LiveOption::Device => self.device = Some(device_of(word)?),
        }
        Some(self)
    }

    // With an option that was not given.
    fn with(self, option: LiveOption, word: String) -> Option<Given>
        ensures { result ≡ with_option self option word }
    {
        if self.has(option) {
            None
        } else {
            self.set(option, word)
        }
    }

    // All options, each as it is given or else as it is without.
    fn options(self) -> LiveOptions
        ensures { result ≡ options_of self }
    {
        let Given {
            workers,
            rate,
            repeat,
            journal,
            device,
        } = self;
        LiveOptions {
            workers: workers.unwrap_or(2),
            rate: rate.unwrap_or(1000),
            repeat,
            journal: journal.unwrap_or(MOST_MOMENTS),
            device,
        }
    }

    // What is asked with these options and two files, if no word comes after them.
    fn live(self, setup: String, frames: String, mut behind: IntoIter<String>) -> Option<Live>
        ensures { result ≡ with_files self setup frames (into_iter_items behind) }
    {
        match behind.next() {
            Some(_word) => None,
            None => Some(Live {
                sizes_given: self.has_sizes(),
                options: self.options(),
                setup,
                frames,
            }),
        }
    }
}

/// What the words after `live` ask: options in any order, each at most once and with a value that it may have, and then two
/// files. `None` if they are no such words.
pub fn live_of(mut words: IntoIter<String>) -> Option<Live>
    ensures { result ≡ asked_live (into_iter_items words) }
{
    let mut given = Given::none();
    'options: while let Some(word) = words.next() {
        let next = words.next()?;
        match LiveOption::of(word.as_str()) {
            Some(option) => given = given.with(option, next)?,
            None => return given.live(word, next, words),
        }
    }
    None
}

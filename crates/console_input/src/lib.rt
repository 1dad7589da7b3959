//! What a program is given: the request in its arguments, and the files that it is to read.
//!
//! [`request_of_args`] tells what the arguments ask, and [`HELP`] which forms they may have. [`read_file`] and [`read_all`] read a
//! file or a reader whole, and [`read_named`] the files that the lines of a script name. Where arguments and files come from is a
//! trait's, of which contracts say what may be found there: [`Arguments`], [`Surroundings`] and [`FileReader`]. [`Terminal`] tells
//! whether standard input is typed. The runtime is all four.
#![tactic(auto)]

mod arguments;
mod book;
mod fault;
mod help;
mod line;
mod live;
mod named;
mod options;
mod order;
mod reader;
mod source;
mod surroundings;
mod terminal;

pub use arguments::Arguments;
pub use book::{BookLines, BookOrder, Request, a_plain_request_is_an_order, request_of_args};
pub use fault::{ArgsFault, Cause, ReadFault};
pub use help::{HELP, VERSION};
pub use live::{Live, LiveOptions, MOST_MOMENTS, MOST_PASSES, MOST_RATE, MOST_WORKERS};
pub use named::{MOST_NAMED, read_named};
pub use options::MOST_WAIT;
pub use order::{Order, live_options_are_within_bounds};
pub use reader::FileReader;
pub use source::{MOST_FRAMES, MOST_SCRIPT, read_all, read_fault, read_file};
pub use surroundings::Surroundings;
pub use terminal::Terminal;

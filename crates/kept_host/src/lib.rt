//! Lines on the host that a file keeps: its book is opened, or made in a file that has none, the lines are done on it, and what
//! they did is kept before they are answered.
//!
//! [`run_kept`] runs a script so on a connection to a database, and [`run_in_file`] on the file of a path; [`talk_kept`] and
//! [`talk_in_file`] answer the lines of an input one by one, each as [`hear`] does, [`take_kept`] and [`take_in_file`] a line that
//! takes a range of changes out, and [`look_kept`] and [`look_in_file`] one that only looks into the journal. [`log_kept`] and
//! [`log_in_file`] tell what was done to the book, event by event. Where files are opened is a trait's, [`Databases`], of which
//! contracts say what may be found there; the runtime is one. What is told beside the answers is another's, [`Asides`].
//! [`only_ask`] tells whether lines only ask, and so need no file.
#![tactic(auto)]

mod asks;
mod fault;
mod file;
pub mod laws;
mod log;
mod look;
mod range;
mod run;
mod talk;
mod terms;
mod words;

pub use asks::only_ask;
pub use fault::{Broken, LogInFileFault, TalkFault};
pub use file::{log_in_file, look_in_file, run_in_file, talk_in_file};
pub use kept_file::Terms;
pub use kept_lines::{
    Asides, Database, Databases, Hints, InFileFault, KeptFault, SerialRange, Wrong, range_of,
};
pub use kept_log::{LogLine, log_line};
pub use log::log_kept;
pub use look::{look_kept, look_now};
pub use range::{RangeFault, Taken, take_in_file, take_kept, take_range};
pub use run::{run_kept, talk_kept};
pub use talk::hear;
pub use terms::host_terms;

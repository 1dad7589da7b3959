//! A range of changes taken out of a kept book: all those in force in it, the last first, or none.
//!
//! [`take_range`] takes them out of a book that a connection keeps: either each of the lines `journal without S` is accepted, and they
//! are kept together and answered, or book and database are as before; `specs/Taking` says what a range comes to. [`take_kept`] does
//! so on the book of a database, which it opens, and [`take_in_file`] on that of a file; what both come to stands in
//! `specs/Ranges`. The line that asks for a range is read in `kept_lines`.

mod fault;
mod held;
mod in_file;
mod kept;
mod taken;
mod taking;
mod takings;
mod told;

pub use fault::RangeFault;
pub use in_file::take_in_file;
pub use kept::take_kept;
pub use taken::Taken;
pub use taking::take_range;
pub(crate) use told::told;

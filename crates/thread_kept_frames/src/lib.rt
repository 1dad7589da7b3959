//! Frames on a book that is kept in a database: two workers serve them, what that changed is kept in one transaction, and then
//! the end of each frame is written.
//!
//! [`keep_frames`] does so with the frames that [`read_frames`] reads, and [`keep_portion`] all of it but the writing. No call of a
//! worker and no order of their calls is stored: what they changed stands in the book in the order of its serials, and leads to the
//! same book when it is done again ([`laws`]). What the reader has seen if the frames are not kept stands in `specs/Serving`.
//!
//! [`serve_kept`] runs a script on the book of a database first, and [`serve_in_file`] on that of the file of a path; what both
//! come to stands in `specs/Hosts`.
//!
//! [`keep_live`] answers the lines of a dialogue on a kept book, and serves frames while none has come: portions of the frames of a
//! [`Flow`], each on the disk whole or not at all. What that comes to stands in `specs/Living`. [`live_kept`] runs a setup on the book
//! of a database first, and [`live_in_file`] on that of the file of a path; what both come to stands in `specs/Lives`. [`listen`] has a
//! thread of its own read the lines of standard input, so that frames are served while none comes.
#![tactic(auto)]

mod fault;
mod host_fault;
mod in_file;
mod keeping;
mod kept;
pub mod laws;
mod live;
mod serve;
mod words;

pub use fault::ServeFault;
pub use host_fault::{HostInFileFault, HostRunFault};
pub use in_file::serve_in_file;
pub use keeping::{keep_frames, keep_portion, read_frames};
pub use kept::{ServedHost, serve_kept};
pub use kept_lines::LinesFault;
pub use live::course::{Course, MOST_PORTION};
pub use live::fault::{LiveFault, LiveHostFault, LiveInFileFault};
pub use live::flow::Flow;
pub use live::in_file::live_in_file;
pub use live::kept::{LivedHost, live_kept};
pub use live::lines::{Heard, Lines, Ready};
pub use live::listener::{ListenFault, Listener, listen};
pub use live::{Lived, keep_live};
pub use serve::Served;

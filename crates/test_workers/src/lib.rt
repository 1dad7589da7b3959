//! Tests of desks and workers: seats that are split, meet and are joined; threads that share a book; how many frames there may
//! be; lines of a console at a desk, of two consoles at once, and a frame under which another console takes something back; a
//! try that is confirmed as its time is up; workers whose gates call the desk, and workers beside other threads: a frame that
//! waits at its gate, an undo under a running frame, and a taking out beside a thousand frames.
#![tactic(auto)]

#[cfg(test)]
mod at_desk;
#[cfg(test)]
mod beside;
#[cfg(test)]
mod books;
#[cfg(test)]
mod calling;
#[cfg(test)]
mod confirm;
#[cfg(test)]
mod consoles;
#[cfg(test)]
mod gone;
#[cfg(test)]
mod limits;
#[cfg(test)]
mod seats;
#[cfg(test)]
mod tests;
#[cfg(test)]
mod threads;
#[cfg(test)]
mod watch;

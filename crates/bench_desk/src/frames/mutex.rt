//! Frames with a `Mutex` round the book: each call of a frame takes the lock.

ghost use Rattle.std.specs.Prelude.{◌<◌};
ghost use denote.Param.Send.{IsSync};

use crate::timed::Timed;
use bt_interp::Run;
use bt_journal::Book;
use bt_mapkind::MapKind;
use bt_verify::Program;
use host_words::Word;
use program_step::Outcome;
use std::alloc::Global;
use std::io;
use std::rt::Clock;
use std::sync::{Mutex, Wait};
use std::thread::{Threads, join};
use std::time::Instant;

// Takes a run to its end.
fn finish<K: MapKind, R: Wait>(rt: &R, book: &Mutex<Book<K>>, run: Run) {
    let mut run = run;
    for _ in 0..1_000_000u32 {
        let outcome = run.advance();
        let Outcome::Access(access) = &outcome else {
            return;
        };
        let prog = run.prog();
        let reply = book.lock(rt).serve(prog, access);
        let _ended = run.resume(reply);
    }
}

// What is attached to the device of a frame, by a call of its own.
fn started<K: MapKind, R: Wait>(
    rt: &R,
    alloc: Global,
    book: &Mutex<Book<K>>,
) -> Option<(Program, u32)> {
    match Word::new(alloc, b"eth0") {
        Ok(device) => book.lock(rt).start(device).ok().flatten(),
        Err(_) => None,
    }
}

fn serve_frame<K: MapKind, R: Wait>(rt: &R, alloc: Global, book: &Mutex<Book<K>>) {
    let Some((program, ifindex)) = started(rt, alloc, book) else {
        return;
    };
    match Vec::from_slice(alloc, &[0]) {
        Ok(bytes) => finish(rt, book, Run::start(program, ifindex, bytes)),
        Err(_) => {}
    }
}

#[cycle(mutex)]
fn share<K: MapKind + Send, R: Threads + Wait + Sync>(
    rt: &R,
    alloc: Global,
    book: &Mutex<Book<K>>,
    frames: u64,
    doublings: u32,
) {
    if doublings == 0 {
        for _ in 0..frames {
            serve_frame(rt, alloc, book);
        }
        return;
    }
    join(
        rt,
        || -> ()
            requires { IsSync R.row × (0 < doublings) }
        { share(rt, alloc, book, frames / 2, doublings - 1) },
        || -> ()
            requires { IsSync R.row × (0 < doublings) }
        { share(rt, alloc, book, frames - frames / 2, doublings - 1) },
    );
}

/// Has 2^doublings threads serve so many frames.
pub(crate) fn time<K: MapKind + Send, R: Threads + Wait + Clock + AllocGlobal + Sync>(
    rt: &R,
    book: Book<K>,
    frames: u64,
    doublings: u32,
) -> io::Result<Timed> {
    let book = Mutex::new(book);
    let start = Instant::now(rt)?;
    share(rt, rt.alloc(), &book, frames, doublings);
    let took = start.elapsed(rt)?;
    Ok(Timed {
        moments: book.into_inner().moments(),
        took,
    })
}

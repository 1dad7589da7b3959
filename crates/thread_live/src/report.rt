//! What is told of the workers, written without memory.

ghost use Rattle.std.specs.Prelude.{◌≡◌, OnErr};
ghost use Rattle.std.specs.List.{flat_map};
ghost use Rattle.console_text.specs.Written.{Writes};
ghost use Rattle.thread_live.specs.Reports.{row_text, rows_text, state_text, standing_text, counts_text, frames_text, moments_text, rate_text, rest_text, behind_text, report_text};

use console_text::{Output, Piece, WriteFault, put, put_pieces};
use thread_rounds::Tally;

/// What the workers do.
#[derive(Clone, Copy, PartialEq, Eq, Debug)]
pub enum State {
    /// They serve frames.
    Running,
    /// They have done all their passes.
    Resting,
    /// They were told to stop.
    Stopped,
}

/// What is told of the workers.
#[derive(Clone, Copy, Debug)]
pub struct Report {
    /// How many there are.
    pub workers: u64,
    /// What they do.
    pub state: State,
    /// How many frames have ended, and how.
    pub tally: Tally,
    /// How many moments are in force.
    pub moments: u64,
    /// How many there can be.
    pub most_moments: u64,
    /// Frames a second since they were last asked.
    pub rate: Option<u64>,
}

/// How many frames ended in one way.
#[derive(Clone, Copy, Debug)]
struct Row {
    name: &'static [u8],
    count: u64,
}

// Writes a row, if it counts any.
fn put_row<W: Output>(out: &mut W, row: &Row) -> Result<(), WriteFault>
    ensures text { Writes (W.contents out.old) (W.contents out.new) result (row_text row.now) }
    ensures refused { OnErr result (W.has_refused out.new) }
{
    if row.count == 0 {
        return put(out, b"");
    }
    put_pieces(
        out,
        &[
            Piece::Plain(row.name),
            Piece::Plain(b" "),
            Piece::Number(row.count),
            Piece::Plain(b"\n"),
        ],
    )
}

fn put_rows<W: Output>(out: &mut W, rows: &[Row]) -> Result<(), WriteFault>
    ensures text { Writes (W.contents out.old) (W.contents out.new) result (rows_text rows.now) }
    ensures refused { OnErr result (W.has_refused out.new) }
{
    for row in rows {
        match put_row(out, row) {
            Ok(()) => {}
            Err(fault) => return Err(fault),
        }
    }
    Ok(())
}

fn put_counts<W: Output>(out: &mut W, tally: Tally) -> Result<(), WriteFault>
    ensures text { Writes (W.contents out.old) (W.contents out.new) result (counts_text tally) }
    ensures refused { OnErr result (W.has_refused out.new) }
{
    put_rows(
        out,
        &[
            Row {
                name: b"XDP_ABORTED",
                count: tally.aborted,
            },
            Row {
                name: b"XDP_DROP",
                count: tally.drop,
            },
            Row {
                name: b"XDP_PASS",
                count: tally.pass,
            },
            Row {
                name: b"XDP_TX",
                count: tally.tx,
            },
            Row {
                name: b"XDP_REDIRECT",
                count: tally.redirect,
            },
            Row {
                name: b"aborted",
                count: tally.faulted,
            },
            Row {
                name: b"no program",
                count: tally.no_program,
            },
            Row {
                name: b"no device",
                count: tally.no_device,
            },
            Row {
                name: b"no memory",
                count: tally.no_memory,
            },
            Row {
                name: b"seat spent",
                count: tally.spent,
            },
        ],
    )
}

fn state_word(state: State) -> &'static [u8]
    ensures { result.now ≡ state_text state }
{
    match state {
        State::Running => b" running\n",
        State::Resting => b" resting\n",
        State::Stopped => b" stopped\n",
    }
}

/// Writes how many workers there are, and what they do.
pub(crate) fn put_standing<W: Output>(
    out: &mut W,
    workers: u64,
    state: State,
) -> Result<(), WriteFault>
    ensures text { Writes (W.contents out.old) (W.contents out.new) result (standing_text workers state) }
    ensures refused { OnErr result (W.has_refused out.new) }
{
    put_pieces(
        out,
        &[
            Piece::Plain(b"workers "),
            Piece::Number(workers),
            Piece::Word(state_word(state)),
        ],
    )
}

fn put_frames<W: Output>(out: &mut W, tally: Tally) -> Result<(), WriteFault>
    ensures text { Writes (W.contents out.old) (W.contents out.new) result (frames_text tally) }
    ensures refused { OnErr result (W.has_refused out.new) }
{
    match put_pieces(
        out,
        &[
            Piece::Plain(b"frames "),
            Piece::Number(tally.frames),
            Piece::Plain(b"\n"),
        ],
    ) {
        Ok(()) => put_counts(out, tally),
        Err(fault) => Err(fault),
    }
}

fn put_moments<W: Output>(out: &mut W, moments: u64, most: u64) -> Result<(), WriteFault>
    ensures text { Writes (W.contents out.old) (W.contents out.new) result (moments_text moments most) }
    ensures refused { OnErr result (W.has_refused out.new) }
{
    put_pieces(
        out,
        &[
            Piece::Plain(b"moments "),
            Piece::Number(moments),
            Piece::Plain(b" of "),
            Piece::Number(most),
            Piece::Plain(b"\n"),
        ],
    )
}

fn put_rate<W: Output>(out: &mut W, rate: Option<u64>) -> Result<(), WriteFault>
    ensures text { Writes (W.contents out.old) (W.contents out.new) result (rate_text rate) }
    ensures refused { OnErr result (W.has_refused out.new) }
{
    match rate {
        Some(rate) => put_pieces(
            out,
            &[
                Piece::Plain(b"rate "),
                Piece::Number(rate),
                Piece::Plain(b"\n"),
            ],
        ),
        None => put(out, b""),
    }
}

// The lines after those of the frames.
fn put_rest<W: Output>(out: &mut W, report: &Report) -> Result<(), WriteFault>
    ensures text { Writes (W.contents out.old) (W.contents out.new) result (rest_text report.now) }
    ensures refused { OnErr result (W.has_refused out.new) }
{
    match put_moments(out, report.moments, report.most_moments) {
        Ok(()) => put_rate(out, report.rate),
        Err(fault) => Err(fault),
    }
}

// The lines after the first.
fn put_behind<W: Output>(out: &mut W, report: &Report) -> Result<(), WriteFault>
    ensures text { Writes (W.contents out.old) (W.contents out.new) result (behind_text report.now) }
    ensures refused { OnErr result (W.has_refused out.new) }
{
    match put_frames(out, report.tally) {
        Ok(()) => put_rest(out, report),
        Err(fault) => Err(fault),
    }
}

/// Writes what is told of the workers: their number and what they do, how many frames ended and how, each number but 0 on a
/// line, how many moments are in force of how many there can be, and the rate.
///
/// # Errors
/// `WriteFault` if a write fails or takes no byte. A front of it may have been written.
pub fn put_report<W: Output>(out: &mut W, report: &Report) -> Result<(), WriteFault>
    ensures text { Writes (W.contents out.old) (W.contents out.new) result (report_text report.now) }
    ensures refused { OnErr result (W.has_refused out.new) }
{
    match put_standing(out, report.workers, report.state) {
        Ok(()) => put_behind(out, report),
        Err(fault) => Err(fault),
    }
}

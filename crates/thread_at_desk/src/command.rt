//! Any command at a desk.

ghost use Rattle.std.specs.Prelude.{◌≡◌, IfOk, MatchResult, OnErr};
ghost use Rattle.thread_lock.specs.Seats.{calls_left};
ghost use Rattle.bt_desk.specs.Seats.{IsSeatAt};
ghost use Rattle.bt_syntax.specs.declared.command.Command.TheVariants as commands;
ghost use Rattle.console_script.specs.CommandLaws.{IsSingle};
ghost use Rattle.thread_at_desk.specs.Ran.{CommandAt};

use crate::frame::frame_at;
use crate::run::run_at;
use crate::session::Session;
use bt_desk::{Desk, Seat, SeatSpent};
use bt_mapkind::MapKind;
use bt_syntax::{Command, Frame};
use console_answer::Answer;
use console_script::Supply;
use std::alloc::Global;
use std::sync::Wait;

// The frame of a command that is one, or else the command.
fn frame_in(command: Command) -> Result<Frame, Command>
    ensures { MatchResult result (λ frame. command ≡ commands.Frame frame) (λ other. (other ≡ command) × IsSingle command) }
{
    match command {
        Command::Frame(frame) => Ok(frame),
        other => Err(other),
    }
}

/// Does a command at a desk, and answers: in one call, as [`run_at`] does, but a frame in one call for its start and one for
/// each access, as [`frame_at`] does.
///
/// # Errors
/// `SeatSpent` if the seat has no calls left for the command, or for a frame's next access. Those before it stand.
pub fn command_at<K: MapKind, S: Supply<K>, R: Wait>(
    rt: &R,
    alloc: Global,
    desk: &Desk<K>,
    seat: &mut Seat<K>,
    session: &mut Session<S>,
    command: Command,
) -> Result<Answer, SeatSpent>
    requires { IsSeatAt desk.now seat.old }
    ensures seat { IsSeatAt desk.now seat.new }
    ensures spent { OnErr result ((calls_left seat.new ≡ 0) × (session.new ≡ session.old)) }
    ensures ran { IfOk result (λ answer. CommandAt S.gives K.seen desk.now session.old command answer session.new seat.old seat.new) }
{
    match frame_in(command) {
        Ok(frame) => frame_at(rt, desk, seat, frame),
        Err(command) => run_at(rt, alloc, desk, seat, session, command),
    }
}

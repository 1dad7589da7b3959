//! One frame, from its start to its end.

ghost use Rattle.std.specs.Prelude.{◌≡◌, ◌≤◌, ◌+◌, List, length, Some};
ghost use Rattle.thread_lock.specs.Seats.{calls_left};
ghost use Rattle.bt_desk.specs.Histories.{Call};
ghost use Rattle.bt_desk.specs.Seats.{IsSeatAt};
ghost use Rattle.bt_interp.specs.Runs.{advanced};
ghost use Rattle.thread_frames.specs.declared.frame.TheConstants.{MOST_BYTES};
ghost use Rattle.bt_workers.specs.Gates.{passes, unmade, tried, AreTold};
ghost use Rattle.bt_workers.specs.Served.{Gains, Steps, RunsBy, GoesOn, FrameBy};

use crate::gate::Gate;
use crate::result::FrameEnd;
use bt_desk::{Desk, Seat, SeatSpent};
use bt_interp::{End, Run};
use bt_mapkind::MapKind;
use bt_verify::Program;
use journal_model::StartFault;
use program_machine::Reason;
use program_step::Outcome;
use std::sync::Wait;
use thread_frames::{FrameIn, Numbered};

// The program that is attached to a device, with its ifindex.
type Picked = Result<Option<(Program, u32)>, StartFault>;

// Takes a run to its next access and through it, or to its end, by a value for where it stops; how the frame ended, if it
// did.
fn step<K: MapKind, R: Wait, G: Gate<R>>(
    rt: &R,
    desk: &Desk<K>,
    seat: &mut Seat<K>,
    gate: &mut G,
    call: (u64, u64),
    run: &mut Run,
    outcome: &mut Outcome,
) -> Option<FrameEnd>
    requires { IsSeatAt desk.now seat.old }
    ensures seat { IsSeatAt desk.now seat.new }
    ensures steps { Steps seat.old run.old result seat.new run.new }
    ensures told { AreTold G.told gate.old (passes call.0 call.1 (tried result)) gate.new }
{
    let access = match run.next_access(outcome) {
        Ok(access) => access,
        Err(end) => return Some(FrameEnd::Ended(end)),
    };
    let (frame, nth) = call;
    gate.pass(rt, frame, nth);
    match desk.serve(rt, seat, run.prog(), access) {
        Ok(reply) => {
            let _ended = run.take(reply);
            None
        }
        Err(SeatSpent) => Some(FrameEnd::SeatSpent),
    }
}

// Takes a run to its end.
fn finish<K: MapKind, R: Wait, G: Gate<R>>(
    rt: &R,
    desk: &Desk<K>,
    seat: &mut Seat<K>,
    gate: &mut G,
    frame: u64,
    run: &mut Run,
) -> FrameEnd
    requires { IsSeatAt desk.now seat.old }
    ensures seat { IsSeatAt desk.now seat.new }
    ensures ran { (calls : List Call) × Gains seat.old calls seat.new × RunsBy (calls_left seat.old) (advanced run.old) calls result
        × AreTold G.told gate.old (passes frame 2 (length calls + unmade result)) gate.new }
{
    let mut nth = 2;
    let mut outcome = Outcome::Abort(Reason::WrongKind);
    'calls: loop {
        match step(rt, desk, seat, gate, (frame, nth), run, &mut outcome) {
            Some(end) => return end,
            None => nth += 1,
        }
    }
}

// What comes of the answer to a frame's start.
fn go_on<K: MapKind, R: Wait, G: Gate<R>>(
    rt: &R,
    desk: &Desk<K>,
    seat: &mut Seat<K>,
    gate: &mut G,
    room: &mut Option<Run>,
    frame: (u64, Vec<u8>),
    picked: Picked,
) -> FrameEnd
    requires seat { IsSeatAt desk.now seat.old }
    requires short { length frame.1.items ≤ MOST_BYTES }
    ensures seat { IsSeatAt desk.now seat.new }
    ensures goes { (calls : List Call) × Gains seat.old calls seat.new × GoesOn (calls_left seat.old) frame.1.items picked calls result
        × AreTold G.told gate.old (passes frame.0 2 (length calls + unmade result)) gate.new }
{
    let (number, bytes) = frame;
    match picked {
        Ok(Some((program, ifindex))) => {
            let run = Run::start_in(room, program, ifindex, bytes);
            finish(rt, desk, seat, gate, number, run)
        }
        Ok(None) => FrameEnd::Ended(End::NoProgram),
        Err(fault) => FrameEnd::NotStarted(fault),
    }
}

/// Serves a frame: starts the program of its device, in the room of the run before it, and takes it to its end. How the frame
/// ended. The gate was told of each call before it was made, and is to be told of the end by the caller.
pub fn serve<K: MapKind, R: Wait, G: Gate<R>>(
    rt: &R,
    desk: &Desk<K>,
    seat: &mut Seat<K>,
    gate: &mut G,
    room: &mut Option<Run>,
    it: Numbered,
) -> FrameEnd
    requires { IsSeatAt desk.now seat.old }
    ensures seat { IsSeatAt desk.now seat.new }
    ensures served { (calls : List Call) × Gains seat.old calls seat.new × FrameBy (calls_left seat.old) it.frame calls result
        × AreTold G.told gate.old (passes it.number 1 (length calls + unmade result)) gate.new }
{
    let Numbered { number, frame } = it;
    let FrameIn { device, bytes } = frame;
    gate.pass(rt, number, 1);
    match desk.start(rt, seat, device) {
        Ok(picked) => go_on(rt, desk, seat, gate, room, (number, bytes), picked),
        Err(SeatSpent) => FrameEnd::SeatSpent,
    }
}

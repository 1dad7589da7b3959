//! Runs one after another in one room.

ghost use Rattle.std.specs.Prelude.{◌≡◌, ◌≤◌, Some, length};
ghost use Rattle.bt_interp.specs.Runs.{started};

use crate::run::Run;
use bt_verify::Program;

// Starts the first run of a room.
#[inline(never)]
fn start_first(room: &mut Option<Run>, program: Program, ifindex: u32, frame: Vec<u8>)
    requires { length frame.items ≤ 4096 }
    ensures { room.new ≡ Some (started program ifindex frame.items) }
{
    *room = Some(Run::start(program, ifindex, frame));
}

impl Run {
    /// The run of the program on a frame of at most 4,096 bytes that came in at this interface, in the room of the run before
    /// it, whose room it takes over as by [`Run::restart`].
    pub fn start_in(
        room: &mut Option<Run>,
        program: Program,
        ifindex: u32,
        frame: Vec<u8>,
    ) -> &mut Run
        requires { length frame.items ≤ 4096 }
        ensures { result.now ≡ started program ifindex frame.items }
    {
        match room {
            Some(run) => run.restart(program, ifindex, frame),
            None => start_first(room, program, ifindex, frame),
        }
        match room {
            Some(run) => run,
            None => unreachable!(),
        }
    }
}

//! What the calls of frames promise: the contract of a function that does nothing.

ghost use Rattle.std.specs.Prelude.{ℕ, List};
ghost use Rattle.bt_verify.specs.Program.{ProgramView};
ghost use Rattle.bt_desk.specs.Histories.{Call};
ghost use Rattle.thread_frames.specs.declared.frame.FrameIn.{FrameIn};
ghost use Rattle.bt_workers.specs.declared.result.FrameEnd.{FrameEnd};
ghost use Rattle.bt_workers.specs.Asked.{AsksOnReplies};

/// What a frame asks of a desk once its program is started, and how it ends, is what `frame_events` of `bt_interp` lists for
/// that program on the replies that the frame got. If its seat had no call left, the list has one access more, and no end.
pub fn a_frame_asks_what_its_replies_lead_to()
    ensures { (left : ℕ) (frame : FrameIn) (start : Call) (calls : List Call) (end : FrameEnd) (program : ProgramView) (ifindex : ℕ) →
        AsksOnReplies left frame start calls end program ifindex }
{}

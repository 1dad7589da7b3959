//! What is told of the frames of a host run.

ghost use Rattle.std.specs.Prelude.{OnErr};
ghost use Rattle.std.specs.Io.KnownBytes.{Keeps};

use console_text::{Output, WriteFault};

/// Tells on standard error of the frames of a host run, if some were refused memory or an access, or if the journal is full
/// after them. What was written so far stands on the output before that.
///
/// # Errors
/// What the output says, and nothing was told.
pub fn tell_frames<R: Eprint, W: Output>(
    rt: &R,
    refused: usize,
    is_full: bool,
    out: &mut W,
) -> Result<(), WriteFault>
    ensures written { Keeps (W.contents out.old) (W.contents out.new) }
    ensures refused { OnErr result (W.has_refused out.new) }
{
    out.flush_all()?;
    if refused > 0 {
        let _ = eprintln!(rt;
            "bpfcon: frames that were refused memory, or a moment by a full journal: {refused}"
        );
    }
    if is_full {
        let _ = rt.eprintln(
            "bpfcon: the journal is full: it has the last moments alone, and no undo leads to before them",
        );
    }
    Ok(())
}

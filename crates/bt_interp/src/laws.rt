//! What a run asks of the maps that it knows: the contract of a function that does nothing.

ghost use Rattle.std.specs.Prelude.{ℕ, List, Option};
ghost use Rattle.bt_mapkind.specs.declared.attr.MapAttr.{MapAttr};
ghost use Rattle.program_access.specs.declared.reply.AccessReply.{AccessReply};
ghost use Rattle.bt_verify.specs.Program.{ProgramView};
ghost use Rattle.bt_interp.specs.Known.{AsksWhatMapsHave};
ghost use Rattle.bt_interp.specs.Runs.{frame_events};

/// Of a map, a run asks only what its type has for programs (bpf-helpers(7)), with keys and values of its sizes. `maps` gives
/// the attributes of each map by its id: of those that the program was verified against, and of those that the replies tell
/// of. That the maps of a book are such, which gives no id twice, is a law of `journal_known_maps`.
pub fn a_run_asks_what_a_map_has()
    ensures { (maps : ℕ → Option MapAttr) (program : ProgramView) (ifindex : ℕ) (frame : List ℕ) (replies : List AccessReply) →
        AsksWhatMapsHave maps program replies ((frame_events program ifindex frame replies).0) }
{}

//! What frames ask of maps, those that workers serve and those of the console, and what the programs that are let in were
//! verified against. Each law is the contract of a function that does nothing.
#![tactic(auto)]

ghost use Rattle.std.specs.Prelude.{ℕ, Bool, List, Option};
ghost use Rattle.bt_mapkind.specs.declared.attr.MapAttr.{MapAttr};
ghost use Rattle.bt_verify.specs.Verified.{Checked};
ghost use Rattle.bt_interp.specs.Runs.{State};
ghost use Rattle.journal_model.specs.Book.{PlainBook};
ghost use Rattle.journal_model.specs.Run.{Given};
ghost use Rattle.journal_model.specs.declared.limits.Limits.{Limits};
ghost use Rattle.bt_syntax.specs.declared.frame.Frame.{Frame};
ghost use Rattle.bt_desk.specs.Histories.{Call};
ghost use Rattle.thread_frame_laws.specs.Asks.{FramesAskWhatMapsHave};
ghost use Rattle.thread_frame_laws.specs.LetIn.{IsLetInOnThem, FramesOfNewHost};
ghost use Rattle.thread_frame_laws.specs.Stepped.{StepsAskHad};

/// For a history of a desk, from a well book on, there are attributes by id that each map of each book of it has. If each
/// program of the book, and each that the history loads, was verified against these, whatever frame made calls of the history
/// asked of each map only what its type has for programs (bpf-helpers(7)), with keys and values of its sizes.
pub fn every_frame_asks_what_its_maps_have()
    ensures { (opened : PlainBook) (history : List Call) (left : PlainBook) → FramesAskWhatMapsHave opened history left }
{}

/// A program that the console lets in over the live maps of a book was verified against the attributes that they have.
pub fn a_program_that_is_let_in_is_on_the_live_maps()
    ensures { (maps : ℕ → Option MapAttr) (b : PlainBook) (bytes : List ℕ) (code : Checked) → IsLetInOnThem maps b bytes code }
{}

/// On a host that began as a new book, each frame of a desk's history asks of each map only what its type has, with keys and
/// values of its sizes, whatever events came before the history, as those of a script. Each program that they load, and that
/// the history loads, is to be one that was let in over the live maps of a book on the way.
pub fn every_frame_of_a_new_host_asks_what_its_maps_have()
    ensures { (devices : List (List ℕ)) (limits : Limits) (b : PlainBook) (script : List Given) (history : List Call) (left : PlainBook) →
        FramesOfNewHost devices limits b script history left }
{}

/// On a host that began as a new book, a frame of the console asks of each map only what its type has, with keys and values of
/// its sizes: however far it has come, the access to which its run comes next is one that its map has. Each
/// program that was loaded before it is to be one that was let in over the live maps of a book on the way.
pub fn every_frame_of_the_console_asks_what_its_maps_have()
    ensures { (devices : List (List ℕ)) (limits : Limits) (b : PlainBook) (script : List Given) (frame : Frame) (s : State) (wants : List Bool) (c : PlainBook) (t : State) →
        StepsAskHad devices limits b script frame s wants c t }
{}

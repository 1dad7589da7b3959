//! The texts of answers that no script gets: numbers that none reaches, and refusals for which a host of this project's own
//! maps has no cause.

use bt_console::{Answer, End, Fault, put_answer};
use bt_insn::DecodeFault;
use bt_mapkind::Errno;
use bt_verify::VerifyFault;
use host_state::{Listing, Origin, Reply};
use host_words::Word;
use journal_model::{ChangeRow, Deed, JournalList, MarkRow};
use program_machine::Reason;
use std::alloc::Global;
use std::process::Abort;

// A list of the last change of all.
fn last_change(rt: &impl Abort, alloc: Global) -> Listing<ChangeRow> {
    let last = ChangeRow {
        serial: u64::MAX,
        origin: Origin::Prog(12),
        deed: Deed::Store(u32::MAX),
    };
    let mut changes = Vec::new(alloc);
    assert!(rt; changes.push(last).is_ok());
    Listing::of(changes)
}

// A list of a mark after it.
fn last_mark(rt: &impl Abort, alloc: Global) -> Listing<MarkRow> {
    let name = Word::new(alloc, b"m").expect(rt, "a name");
    let moments = u64::MAX;
    let mut marks = Vec::new(alloc);
    assert!(rt; marks.push(MarkRow { name, moments }).is_ok());
    Listing::of(marks)
}

const TEXTS: &str = "18446744073709551615 prog 12 store map 4294967295
mark m 18446744073709551615
ok 18446744073709551615 id 4294967295
ok 18446744073709551615
undone 18446744073709551615
run 18446744073709551615 XDP_ABORTED 0 WrongReply
Error: ENOMEM (-12)
Error: wrong blank
Error: no memory
Error: no memory
Error: no memory
Error: verify TooLong
";

// Writes the text of an answer after the others.
fn put(rt: &impl Abort, out: &mut Vec<u8>, answer: Answer) {
    assert!(rt; put_answer(out, &answer).is_ok());
}

fn put_faults(rt: &impl Abort, out: &mut Vec<u8>) {
    put(rt, out, Answer::Refused(Fault::Errno(Errno::ENOMEM)));
    put(rt, out, Answer::Refused(Fault::WrongBlank));
    put(rt, out, Answer::Refused(Fault::NoMemory));
    put(
        rt,
        out,
        Answer::Refused(Fault::Decode(DecodeFault::NoMemory)),
    );
    put(
        rt,
        out,
        Answer::Refused(Fault::Verify(VerifyFault::NoMemory)),
    );
    put(
        rt,
        out,
        Answer::Refused(Fault::Verify(VerifyFault::TooLong)),
    );
}

#[test]
fn answers_that_no_script_gets(rt: HostRuntime) {
    let alloc = rt.alloc();
    let (serial, run, id) = (u64::MAX, u64::MAX, Reply::Id(u32::MAX));
    let abort = console_answer::Abort {
        reason: Reason::WrongReply,
        prog: 1,
        slot: 0,
    };
    let (old, end) = (Reply::Old(7), End::Aborted(abort));
    let (changes, marks) = (last_change(&rt, alloc), last_mark(&rt, alloc));
    let mut out = Vec::new(alloc);
    put(
        &rt,
        &mut out,
        Answer::Listed(JournalList { changes, marks }),
    );
    put(&rt, &mut out, Answer::Changed { serial, reply: id });
    put(&rt, &mut out, Answer::Changed { serial, reply: old });
    put(&rt, &mut out, Answer::Undone(serial));
    put(&rt, &mut out, Answer::Stopped { run, end });
    put_faults(&rt, &mut out);
    assert_eq!(rt; out.as_slice(), TEXTS.as_bytes());
}

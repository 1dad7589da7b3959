//! A program by its bytes, and what comes of it: a fault, or how its run ends.

use crate::slots::{EXIT, slot, wide};
use anyhow::{Context, Result, ensure};
use bt_insn::{DecodeFault, decode};
use bt_interp::Run;
use bt_mapkind::MapAttr;
use bt_verify::{MapList, Program, VerifyFault, verify};
use program_access::Access;
use program_machine::Reason;
use program_step::{Action, Outcome};
use std::alloc::{AllocError, Global};
use std::fmt;
use std::sync::Arc;

/// The interface at which every frame came in.
const IFINDEX: u32 = 3;

/// What a program is run on.
#[derive(Clone, Copy)]
pub struct Setting<'a> {
    /// The maps that it may name, with their ids.
    pub maps: [Option<(u32, MapAttr)>; 2],
    pub frame: &'a [u8],
}

/// No maps, and a frame of no byte.
pub const NOTHING: Setting<'static> = Setting {
    maps: [None, None],
    frame: &[],
};

/// What comes of a program.
#[derive(Drop)]
pub enum End {
    NotDecoded(DecodeFault),
    NotVerified(VerifyFault),
    Done(Action),
    Aborted(Reason),
    /// It asks this of a map, and there is nothing to answer it.
    Asks(Access),
}

fn action_text(action: Action) -> &'static str {
    match action {
        Action::Aborted => "XDP_ABORTED 0",
        Action::Drop => "XDP_DROP 1",
        Action::Pass => "XDP_PASS 2",
        Action::Tx => "XDP_TX 3",
        Action::Redirect => "XDP_REDIRECT 4",
    }
}

impl fmt::Display for End {
    fn fmt<W: fmt::Write>(&self, f: &mut fmt::Formatter<W>) -> fmt::Result {
        match self {
            End::NotDecoded(fault) => write!(f, "decode {fault:?}"),
            End::NotVerified(fault) => write!(f, "verify {fault:?}"),
            End::Done(action) => f.write_str(action_text(*action)),
            End::Aborted(reason) => write!(f, "XDP_ABORTED 0 {reason:?}"),
            End::Asks(access) => write!(f, "asks {access:?}"),
        }
    }
}

// The maps that are there, of two.
fn map_list(alloc: Global, maps: [Option<(u32, MapAttr)>; 2]) -> Result<MapList> {
    let mut pairs = Vec::new(alloc);
    match maps {
        [Some(first), Some(second)] => {
            ensure!(first.0 != second.0, "two maps with one id");
            pairs.push(first)?;
            pairs.push(second)?;
        }
        [Some(only), None] | [None, Some(only)] => pairs.push(only)?,
        [None, None] => {}
    }
    Ok(MapList::new(pairs))
}

/// What comes of the program with these bytes.
pub fn end_of(alloc: Global, bytes: &[u8], setting: &Setting<'_>) -> Result<End> {
    let insns = match decode(alloc, bytes) {
        Ok(insns) => insns,
        Err(fault) => return Ok(End::NotDecoded(fault)),
    };
    let code = match verify(alloc, insns, &map_list(alloc, setting.maps)?) {
        Ok(code) => code,
        Err(fault) => return Ok(End::NotVerified(fault)),
    };
    let program = Program {
        id: 1,
        code: Arc::new(alloc, code).map_err(AllocError::from)?,
    };
    ensure!(
        setting.frame.len() <= 4096,
        "a frame has at most 4096 bytes"
    );
    let mut run = Run::start(program, IFINDEX, setting.frame.to_vec(alloc)?);
    Ok(match run.advance() {
        Outcome::Done(action) => End::Done(action),
        Outcome::Abort(reason) => End::Aborted(reason),
        Outcome::Access(access) => End::Asks(access),
    })
}

// The program that continues with these slots where it would end: each EXIT is a jump to them.
fn going_on(alloc: Global, bytes: &[u8], slots: &[[u8; 8]]) -> Result<Vec<u8>> {
    let mut whole = Vec::new(alloc);
    let mut left = bytes.len() / 8;
    for given in bytes.chunks(8) {
        left = left.saturating_sub(1);
        if given == EXIT.as_slice() {
            let distance = i16::try_from(left).context("too long a program")?;
            whole.extend_from_slice(&slot(0x05, 0, distance, 0))?;
        } else {
            whole.extend_from_slice(given)?;
        }
    }
    for slot in slots {
        whole.extend_from_slice(slot)?;
    }
    Ok(whole)
}

// The slots that pass the frame if R0 is the number, and else drop it.
fn comparing(number: u64) -> [[u8; 8]; 7] {
    let [low, high] = wide(1, number);
    let drop = slot(0xb7, 0, 0, 1);
    let pass = slot(0xb7, 0, 0, 2);
    [low, high, slot(0x1d, 0x10, 2, 0), drop, EXIT, pass, EXIT]
}

// The slots whose action tells two bits of R0, from bit `shift` on: it is 1 if they are 0, and so on.
fn telling(shift: u8) -> [[u8; 8]; 4] {
    let down = slot(0x77, 0, 0, i32::from(shift));
    [down, slot(0x57, 0, 0, 3), slot(0x07, 0, 0, 1), EXIT]
}

/// The number that the program leaves in R0 at EXIT, or what else comes of it. It takes one run to tell that it is the
/// one that is wanted, and 32 more if it is another.
pub fn number_of(
    alloc: Global,
    bytes: &[u8],
    setting: &Setting<'_>,
    wanted: u64,
) -> Result<Result<u64, End>> {
    let compared = going_on(alloc, bytes, &comparing(wanted))?;
    match end_of(alloc, &compared, setting)? {
        End::Done(Action::Pass) => return Ok(Ok(wanted)),
        End::Done(_) => {}
        other => return Ok(Err(other)),
    }
    let mut number: u64 = 0;
    for place in 0..32u8 {
        let shift = 2 * place;
        let told = going_on(alloc, bytes, &telling(shift))?;
        if let End::Done(action) = end_of(alloc, &told, setting)? {
            let bits = u64::from(action.number().saturating_sub(1));
            number |= bits << shift;
        }
    }
    Ok(Ok(number))
}

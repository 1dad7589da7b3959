//! The texts of programs shown, dumped and refused, written without memory.

ghost use Rattle.std.specs.Prelude.{◌≡◌, ◌∷◌, [], ◌++◌, codes, decimal, OnErr};
ghost use Rattle.std.specs.List.{flat_map, concat};
ghost use Rattle.console_text.specs.Written.{Writes};
ghost use Rattle.console_text.specs.Text.{bytes_text, spaced_hex_of, slot_text, slot_and_text, decode_text, verify_text, next_id_text, ids_text, program_text, prog_text, insn_text, code_text};

use crate::output::{Output, WriteFault};
use crate::piece::{Piece, put, put_pieces};
use bt_insn::{DecodeFault, Insn};
use bt_verify::VerifyFault;
use host_state::ProgRow;

// Writes a fault and its slot.
fn put_slot<W: Output>(out: &mut W, words: &'static [u8], slot: usize) -> Result<(), WriteFault>
    ensures text { Writes (W.contents out.old) (W.contents out.new) result (slot_text words.now slot) }
    ensures refused { OnErr result (W.has_refused out.new) }
{
    put_pieces(
        out,
        &[
            Piece::Plain(words),
            Piece::Number(slot as u64),
            Piece::Plain(b"\n"),
        ],
    )
}

// Writes a fault, its slot, and the number of what is wrong there.
fn put_slot_and<W: Output>(
    out: &mut W,
    words: &'static [u8],
    slot: usize,
    what: u64,
) -> Result<(), WriteFault>
    ensures text { Writes (W.contents out.old) (W.contents out.new) result (slot_and_text words.now slot what) }
    ensures refused { OnErr result (W.has_refused out.new) }
{
    put_pieces(
        out,
        &[
            Piece::Plain(words),
            Piece::Number(slot as u64),
            Piece::Plain(b" "),
            Piece::Number(what),
            Piece::Plain(b"\n"),
        ],
    )
}

/// Writes why bytes are no instructions.
pub fn put_decode<W: Output>(out: &mut W, fault: DecodeFault) -> Result<(), WriteFault>
    ensures text { Writes (W.contents out.old) (W.contents out.new) result (decode_text fault) }
    ensures refused { OnErr result (W.has_refused out.new) }
{
    match fault {
        DecodeFault::BadLength => put(out, b"Error: decode BadLength\n"),
        DecodeFault::TooLong => put(out, b"Error: decode TooLong\n"),
        DecodeFault::BadOpcode(slot) => put_slot(out, b"Error: decode BadOpcode ", slot),
        DecodeFault::BadField(slot) => put_slot(out, b"Error: decode BadField ", slot),
        DecodeFault::HalfWide(slot) => put_slot(out, b"Error: decode HalfWide ", slot),
        DecodeFault::NoMemory => put(out, b"Error: no memory\n"),
    }
}

/// Writes why instructions are no program.
pub fn put_verify<W: Output>(out: &mut W, fault: VerifyFault) -> Result<(), WriteFault>
    ensures text { Writes (W.contents out.old) (W.contents out.new) result (verify_text fault) }
    ensures refused { OnErr result (W.has_refused out.new) }
{
    match fault {
        VerifyFault::TooLong => put(out, b"Error: verify TooLong\n"),
        VerifyFault::WritesFrame(slot) => put_slot(out, b"Error: verify WritesFrame ", slot),
        VerifyFault::NoHelper(slot) => put_slot(out, b"Error: verify NoHelper ", slot),
        VerifyFault::NoMap(slot, id) => {
            put_slot_and(out, b"Error: verify NoMap ", slot, u64::from(id))
        }
        VerifyFault::JumpOut(slot) => put_slot(out, b"Error: verify JumpOut ", slot),
        VerifyFault::IntoWide(slot) => put_slot(out, b"Error: verify IntoWide ", slot),
        VerifyFault::BackEdge(slot) => put_slot(out, b"Error: verify BackEdge ", slot),
        VerifyFault::FallsOff => put(out, b"Error: verify FallsOff\n"),
        VerifyFault::Uninit(slot, register) => {
            put_slot_and(out, b"Error: verify Uninit ", slot, register.index() as u64)
        }
        VerifyFault::NoMemory => put(out, b"Error: no memory\n"),
    }
}

fn put_next_id<W: Output>(out: &mut W, id: u32) -> Result<(), WriteFault>
    ensures text { Writes (W.contents out.old) (W.contents out.new) result (next_id_text id) }
    ensures refused { OnErr result (W.has_refused out.new) }
{
    put_pieces(out, &[Piece::Plain(b","), Piece::Number(u64::from(id))])
}

fn put_next_ids<W: Output>(out: &mut W, ids: &[u32]) -> Result<(), WriteFault>
    ensures text { Writes (W.contents out.old) (W.contents out.new) result (flat_map next_id_text ids.now) }
    ensures refused { OnErr result (W.has_refused out.new) }
{
    for id in ids {
        match put_next_id(out, *id) {
            Ok(()) => {}
            Err(fault) => return Err(fault),
        }
    }
    Ok(())
}

fn put_first_id<W: Output>(out: &mut W, id: u32) -> Result<(), WriteFault>
    ensures text { Writes (W.contents out.old) (W.contents out.new) result (concat (codes " map_ids " ∷ decimal id ∷ [])) }
    ensures refused { OnErr result (W.has_refused out.new) }
{
    put_pieces(
        out,
        &[Piece::Plain(b" map_ids "), Piece::Number(u64::from(id))],
    )
}

// Writes the ids of the maps that a program names, if there are any.
fn put_ids<W: Output>(out: &mut W, ids: &[u32]) -> Result<(), WriteFault>
    ensures text { Writes (W.contents out.old) (W.contents out.new) result (ids_text ids.now) }
    ensures refused { OnErr result (W.has_refused out.new) }
{
    match ids.split_first() {
        Some((first, rest)) => match put_first_id(out, *first) {
            Ok(()) => put_next_ids(out, rest),
            Err(fault) => Err(fault),
        },
        None => Ok(()),
    }
}

fn put_program<W: Output>(out: &mut W, id: u32, name: &[u8], insns: usize) -> Result<(), WriteFault>
    ensures text { Writes (W.contents out.old) (W.contents out.new) result (program_text id name.now insns) }
    ensures refused { OnErr result (W.has_refused out.new) }
{
    put_pieces(
        out,
        &[
            Piece::Number(u64::from(id)),
            Piece::Plain(b": xdp name "),
            Piece::Word(name),
            Piece::Plain(b" insns "),
            Piece::Number(insns as u64),
        ],
    )
}

// Writes what comes after the number of instructions.
fn put_end<W: Output>(out: &mut W, maps: &[u32]) -> Result<(), WriteFault>
    ensures text { Writes (W.contents out.old) (W.contents out.new) result (ids_text maps.now ++ codes "\n") }
    ensures refused { OnErr result (W.has_refused out.new) }
{
    match put_ids(out, maps) {
        Ok(()) => put(out, b"\n"),
        Err(fault) => Err(fault),
    }
}

fn put_prog<W: Output>(out: &mut W, row: &ProgRow) -> Result<(), WriteFault>
    ensures text { Writes (W.contents out.old) (W.contents out.new) result (prog_text row.now) }
    ensures refused { OnErr result (W.has_refused out.new) }
{
    match put_program(out, row.id, row.name.as_slice(), row.insns) {
        Ok(()) => put_end(out, row.maps.as_slice()),
        Err(fault) => Err(fault),
    }
}

/// Writes what is shown of programs, one a line.
pub fn put_progs<W: Output>(out: &mut W, rows: &[ProgRow]) -> Result<(), WriteFault>
    ensures text { Writes (W.contents out.old) (W.contents out.new) result (flat_map prog_text rows.now) }
    ensures refused { OnErr result (W.has_refused out.new) }
{
    for row in rows {
        match put_prog(out, row) {
            Ok(()) => {}
            Err(fault) => return Err(fault),
        }
    }
    Ok(())
}

// Writes a slot and its bytes, and those of the slot after it.
fn put_slots<'x, W: Output>(
    out: &mut W,
    slot: usize,
    first: &'x [u8],
    second: &'x [u8],
) -> Result<(), WriteFault>
    ensures text { Writes (W.contents out.old) (W.contents out.new) result
        (concat (decimal slot ∷ codes ": " ∷ bytes_text first.now ∷ flat_map spaced_hex_of second.now ∷ codes "\n" ∷ [])) }
    ensures refused { OnErr result (W.has_refused out.new) }
{
    put_pieces(
        out,
        &[
            Piece::Number(slot as u64),
            Piece::Plain(b": "),
            Piece::Bytes(first),
            Piece::Spaced(second),
            Piece::Plain(b"\n"),
        ],
    )
}

fn put_insn<W: Output>(out: &mut W, slot: usize, insn: Insn) -> Result<(), WriteFault>
    ensures text { Writes (W.contents out.old) (W.contents out.new) result (insn_text slot insn) }
    ensures refused { OnErr result (W.has_refused out.new) }
{
    let first = insn.first_slot();
    match insn.second_slot() {
        Some(second) => put_slots(out, slot, &first, &second),
        None => put_slots(out, slot, &first, &[]),
    }
}

/// Writes the instructions of a program, one a line, each with its first slot.
pub fn put_code<W: Output>(out: &mut W, insns: &[Insn]) -> Result<(), WriteFault>
    ensures text { Writes (W.contents out.old) (W.contents out.new) result (code_text 0 insns.now) }
    ensures refused { OnErr result (W.has_refused out.new) }
{
    let mut slot = 0;
    for insn in insns {
        match put_insn(out, slot, *insn) {
            Ok(()) => slot += insn.slots(),
            Err(fault) => return Err(fault),
        }
    }
    Ok(())
}

//! Arithmetic and comparisons where a pointer, a map or the context may stand in place of a number.

ghost use Rattle.std.specs.Prelude.{◌≡◌, Some, None, MatchResult};
ghost use Rattle.program_machine.specs.Pointers as pointers;
ghost use Rattle.program_machine.specs.Pointers.{IsPut};
ghost use Rattle.program_machine.specs.declared.reason.Reason.TheVariants.{WrongKind};

use crate::holder::Holder;
use crate::kind::Kind;
use crate::reason::Reason;
use bt_insn::{AluOp, Condition, Width};
use program_alu::{alu, holds, low_half};

// Moves the pointer that is held forward.
fn advance(holder: &mut Holder, by: u64) -> Result<(), Reason>
    ensures { IsPut (pointers.advanced holder.old by) result holder.old holder.new }
{
    match holder.kind() {
        Kind::Stack(position) => holder.set(Kind::Stack(position.wrapping_add(by))),
        Kind::Frame(position) => holder.set(Kind::Frame(position.wrapping_add(by))),
        Kind::Value { position, .. } => holder.move_to(position.wrapping_add(by)),
        _ => return Err(Reason::WrongKind),
    }
    Ok(())
}

// Moves the pointer that is held back.
fn retreat(holder: &mut Holder, by: u64) -> Result<(), Reason>
    ensures { IsPut (pointers.retreated holder.old by) result holder.old holder.new }
{
    match holder.kind() {
        Kind::Stack(position) => holder.set(Kind::Stack(position.wrapping_sub(by))),
        Kind::Frame(position) => holder.set(Kind::Frame(position.wrapping_sub(by))),
        Kind::Value { position, .. } => holder.move_to(position.wrapping_sub(by)),
        _ => return Err(Reason::WrongKind),
    }
    Ok(())
}

// The positions of two pointers into one region.
fn positions(a: &Holder, b: &Holder) -> Option<(u64, u64)>
    ensures { result ≡ pointers.positions a.now b.now }
{
    match (a.kind(), b.kind()) {
        (Kind::Stack(position), Kind::Stack(other)) => Some((position, other)),
        (Kind::Frame(position), Kind::Frame(other)) => Some((position, other)),
        (
            Kind::Value { map, position, .. },
            Kind::Value {
                map: other_map,
                position: other,
                ..
            },
        ) => {
            if map == other_map && a.key() == b.key() {
                Some((position, other))
            } else {
                None
            }
        }
        _ => None,
    }
}

fn sum(dst: &mut Holder, src: &Holder) -> Result<(), Reason>
    ensures { IsPut (pointers.sum dst.old src.now) result dst.old dst.new }
{
    match (dst.kind(), src.kind()) {
        (_, Kind::Number(by)) => advance(dst, by),
        (Kind::Number(by), _) => {
            let mut moved = src.copy();
            advance(&mut moved, by)?;
            dst.copy_from(&moved);
            Ok(())
        }
        _ => Err(Reason::WrongKind),
    }
}

fn difference(dst: &mut Holder, src: &Holder) -> Result<(), Reason>
    ensures { IsPut (pointers.difference dst.old src.now) result dst.old dst.new }
{
    if let Kind::Number(by) = src.kind() {
        return retreat(dst, by);
    }
    match positions(dst, src) {
        Some((to, from)) => {
            dst.set(Kind::Number(to.wrapping_sub(from)));
            Ok(())
        }
        None => Err(Reason::WrongKind),
    }
}

fn of_kinds(op: AluOp, dst: &mut Holder, src: &Holder) -> Result<(), Reason>
    ensures { IsPut (pointers.of_kinds op dst.old src.now) result dst.old dst.new }
{
    match op {
        AluOp::Add => sum(dst, src),
        AluOp::Sub => difference(dst, src),
        _ => Err(Reason::WrongKind),
    }
}

fn copied(width: Width, dst: &mut Holder, src: &Holder) -> Result<(), Reason>
    ensures { IsPut (pointers.copied width src.now) result dst.old dst.new }
{
    match (width, src.kind()) {
        (Width::DoubleWord, _) => dst.copy_from(src),
        (Width::Word, Kind::Number(number)) => dst.set(Kind::Number(u64::from(low_half(number)))),
        (Width::Word, _) => return Err(Reason::WrongKind),
    }
    Ok(())
}

fn unlike_numbers(width: Width, op: AluOp, dst: &mut Holder, src: &Holder) -> Result<(), Reason>
    ensures { IsPut (pointers.unlike_numbers width op dst.old src.now) result dst.old dst.new }
{
    match (op, width) {
        (AluOp::Mov, _) => copied(width, dst, src),
        (_, Width::Word) => Err(Reason::WrongKind),
        (_, Width::DoubleWord) => of_kinds(op, dst, src),
    }
}

fn calculated(width: Width, op: AluOp, dst: &mut Holder, src: &Holder) -> Result<(), Reason>
    ensures { IsPut (pointers.alu_held width op dst.old src.now) result dst.old dst.new }
{
    match (dst.kind(), src.kind()) {
        (Kind::Number(a), Kind::Number(b)) => {
            dst.set(Kind::Number(alu(width, op, a, b)));
            Ok(())
        }
        _ => unlike_numbers(width, op, dst, src),
    }
}

/// Puts what an arithmetic operation gives in the first operand's place. A 64-bit move copies any value, a 64-bit sum
/// moves a pointer by a number, a 64-bit difference moves it back or is the distance of two pointers into one region;
/// all else is of numbers, and a move does not look at what it replaces.
///
/// # Errors
/// `WrongKind` if an operand is none of these; nothing has changed then.
pub fn calculate(width: Width, op: AluOp, dst: &mut Holder, src: &Holder) -> Result<(), Reason>
    ensures { MatchResult result (λ _. pointers.alu_held width op dst.old src.now ≡ Some dst.new)
        (λ e. (pointers.alu_held width op dst.old src.now ≡ None) × (e ≡ WrongKind) × (dst.new ≡ dst.old)) }
{
    calculated(width, op, dst, src)
}

fn with_zero(condition: Condition, number: u64) -> Option<bool>
    ensures { result ≡ pointers.with_zero condition number }
{
    match condition {
        Condition::Eq if number == 0 => Some(false),
        Condition::Ne if number == 0 => Some(true),
        _ => None,
    }
}

fn of_positions(condition: Condition, positions: Option<(u64, u64)>) -> Option<bool>
    ensures { result ≡ pointers.of_positions condition positions }
{
    match (condition, positions) {
        (Condition::Set, _) | (_, None) => None,
        (_, Some((a, b))) => Some(holds(Width::DoubleWord, condition, a, b)),
    }
}

fn compared_kinds(condition: Condition, a: &Holder, b: &Holder) -> Option<bool>
    ensures { result ≡ pointers.compared_kinds condition a.now b.now }
{
    match (a.kind(), b.kind()) {
        (_, Kind::Number(number)) => with_zero(condition, number),
        (Kind::Number(number), _) => with_zero(condition, number),
        _ => of_positions(condition, positions(a, b)),
    }
}

/// Whether a condition holds, if the two may be compared: numbers; in 64 bits the positions of two pointers into one
/// region, but for `Set`, and anything with 0 for equality, to which it is unequal.
#[inline(never)]
pub fn compared(width: Width, condition: Condition, a: &Holder, b: &Holder) -> Option<bool>
    ensures { result ≡ pointers.compared width condition a.now b.now }
{
    match (a.kind(), b.kind(), width) {
        (Kind::Number(a), Kind::Number(b), _) => Some(holds(width, condition, a, b)),
        (_, _, Width::Word) => None,
        (_, _, Width::DoubleWord) => compared_kinds(condition, a, b),
    }
}

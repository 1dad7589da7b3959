//! Operations by their names, and the programs that tell what each does (RFC 9669, sections 4 and 5.3).

use crate::slots::{EXIT, slot, wide};
use anyhow::{Context, Result, bail};
use std::alloc::Global;

/// How an operation is written.
#[derive(Clone, Copy, PartialEq, Eq)]
enum Form {
    /// With a register or an immediate; its detail is its offset.
    Arithmetic,
    /// A move that extends the sign of so many bits.
    Extension,
    /// With no second operand.
    Negation,
    /// A swap of so many bits.
    Swap,
    /// A jump with a register or an immediate.
    Jump,
    /// On memory, by its immediate.
    Atomic,
}

/// Names, with the bits of the opcode that are not its class, and a detail.
const OPERATIONS: [(&str, Form, u8, i16); 48] = [
    ("ADD", Form::Arithmetic, 0x00, 0),
    ("SUB", Form::Arithmetic, 0x10, 0),
    ("MUL", Form::Arithmetic, 0x20, 0),
    ("DIV", Form::Arithmetic, 0x30, 0),
    ("SDIV", Form::Arithmetic, 0x30, 1),
    ("OR", Form::Arithmetic, 0x40, 0),
    ("AND", Form::Arithmetic, 0x50, 0),
    ("LSH", Form::Arithmetic, 0x60, 0),
    ("RSH", Form::Arithmetic, 0x70, 0),
    ("NEG", Form::Negation, 0x80, 0),
    ("MOD", Form::Arithmetic, 0x90, 0),
    ("SMOD", Form::Arithmetic, 0x90, 1),
    ("XOR", Form::Arithmetic, 0xa0, 0),
    ("MOV", Form::Arithmetic, 0xb0, 0),
    ("MOVSX8", Form::Extension, 0xb8, 8),
    ("MOVSX16", Form::Extension, 0xb8, 16),
    ("MOVSX32", Form::Extension, 0xb8, 32),
    ("ARSH", Form::Arithmetic, 0xc0, 0),
    ("LE16", Form::Swap, 0xd4, 16),
    ("LE32", Form::Swap, 0xd4, 32),
    ("LE64", Form::Swap, 0xd4, 64),
    ("BE16", Form::Swap, 0xdc, 16),
    ("BE32", Form::Swap, 0xdc, 32),
    ("BE64", Form::Swap, 0xdc, 64),
    ("BSWAP16", Form::Swap, 0xd7, 16),
    ("BSWAP32", Form::Swap, 0xd7, 32),
    ("BSWAP64", Form::Swap, 0xd7, 64),
    ("JEQ", Form::Jump, 0x10, 0),
    ("JGT", Form::Jump, 0x20, 0),
    ("JGE", Form::Jump, 0x30, 0),
    ("JSET", Form::Jump, 0x40, 0),
    ("JNE", Form::Jump, 0x50, 0),
    ("JSGT", Form::Jump, 0x60, 0),
    ("JSGE", Form::Jump, 0x70, 0),
    ("JLT", Form::Jump, 0xa0, 0),
    ("JLE", Form::Jump, 0xb0, 0),
    ("JSLT", Form::Jump, 0xc0, 0),
    ("JSLE", Form::Jump, 0xd0, 0),
    ("ATOMIC_ADD", Form::Atomic, 0, 0x00),
    ("ATOMIC_OR", Form::Atomic, 0, 0x40),
    ("ATOMIC_AND", Form::Atomic, 0, 0x50),
    ("ATOMIC_XOR", Form::Atomic, 0, 0xa0),
    ("FETCH_ADD", Form::Atomic, 0, 0x01),
    ("FETCH_OR", Form::Atomic, 0, 0x41),
    ("FETCH_AND", Form::Atomic, 0, 0x51),
    ("FETCH_XOR", Form::Atomic, 0, 0xa1),
    ("XCHG", Form::Atomic, 0, 0xe1),
    ("CMPXCHG", Form::Atomic, 0, 0xf1),
];

/// An operation in one of its two widths.
#[derive(Clone, Copy)]
pub struct Operation {
    form: Form,
    code: u8,
    detail: i16,
    is_whole: bool,
}

/// A program and the number that it is to leave in R0.
#[derive(Drop)]
pub struct Check {
    /// What the program shows.
    pub shows: &'static str,
    pub program: Vec<u8>,
    pub wanted: u64,
}

// Puts numbers into registers and continues with these slots, to EXIT.
fn program(alloc: Global, numbers: &[(u8, u64)], slots: &[[u8; 8]]) -> Result<Vec<u8>> {
    let mut bytes = Vec::new(alloc);
    for (register, number) in numbers {
        for slot in wide(*register, *number) {
            bytes.extend_from_slice(&slot)?;
        }
    }
    for slot in slots {
        bytes.extend_from_slice(slot)?;
    }
    bytes.extend_from_slice(&EXIT)?;
    Ok(bytes)
}

impl Operation {
    /// The operation with this name in this width, of 64 or of 32 bits.
    pub fn new(name: &str, width: &str) -> Result<Operation> {
        let is_whole = match width {
            "64" => true,
            "32" => false,
            _ => bail!("{width} is no width"),
        };
        let (_, form, code, detail) = OPERATIONS
            .iter()
            .find(|row| row.0 == name)
            .context(format_args!("{name} is no operation"))?;
        Ok(Operation {
            form: *form,
            code: *code,
            detail: *detail,
            is_whole,
        })
    }

    // The opcode, with the class of its width.
    fn opcode(self) -> u8 {
        match (self.form, self.is_whole) {
            (Form::Swap, _) => self.code,
            (Form::Jump, true) => self.code | 0x05,
            (Form::Jump, false) => self.code | 0x06,
            (Form::Atomic, true) => 0xdb,
            (Form::Atomic, false) => 0xc3,
            (_, true) => self.code | 0x07,
            (_, false) => self.code | 0x04,
        }
    }

    // The immediate that stands for the number, if one does: in 64 bits its sign is extended.
    fn immediate(self, number: u64) -> Option<i32> {
        let low = ((number & 0xffff_ffff) as u32).cast_signed();
        if !self.is_whole || i64::from(low).cast_unsigned() == number {
            Some(low)
        } else {
            None
        }
    }

    // On two registers, and on an immediate if one stands for `src`.
    fn binary(self, alloc: Global, dst: u64, src: u64, wanted: u64) -> Result<Vec<Check>> {
        let mut checks = Vec::new(alloc);
        let on_register = slot(self.opcode() | 0x08, 0x10, self.detail, 0);
        checks.push(Check {
            shows: "on a register",
            program: program(alloc, &[(0, dst), (1, src)], &[on_register])?,
            wanted,
        })?;
        if self.form == Form::Arithmetic
            && let Some(immediate) = self.immediate(src)
        {
            let on_immediate = slot(self.opcode(), 0, self.detail, immediate);
            checks.push(Check {
                shows: "on an immediate",
                program: program(alloc, &[(0, dst)], &[on_immediate])?,
                wanted,
            })?;
        }
        Ok(checks)
    }

    // On one register.
    fn unary(self, alloc: Global, dst: u64, wanted: u64) -> Result<Vec<Check>> {
        let mut checks = Vec::new(alloc);
        let operation = slot(self.opcode(), 0, 0, i32::from(self.detail));
        checks.push(Check {
            shows: "on a register",
            program: program(alloc, &[(0, dst)], &[operation])?,
            wanted,
        })?;
        Ok(checks)
    }

    // A jump over the slot that puts 0 into R0.
    fn jump(self, alloc: Global, dst: u64, src: u64, wanted: u64) -> Result<Vec<Check>> {
        let mut checks = Vec::new(alloc);
        let one = slot(0xb7, 0, 0, 1);
        let zero = slot(0xb7, 0, 0, 0);
        let on_register = slot(self.opcode() | 0x08, 0x13, 1, 0);
        checks.push(Check {
            shows: "on a register",
            program: program(alloc, &[(3, dst), (1, src)], &[one, on_register, zero])?,
            wanted,
        })?;
        if let Some(immediate) = self.immediate(src) {
            let on_immediate = slot(self.opcode(), 3, 1, immediate);
            checks.push(Check {
                shows: "on an immediate",
                program: program(alloc, &[(3, dst)], &[one, on_immediate, zero])?,
                wanted,
            })?;
        }
        Ok(checks)
    }

    // On the highest word of the stack; `before` and `after` are of the memory, the register and R0.
    fn atomic(self, alloc: Global, before: [u64; 3], after: [u64; 3]) -> Result<Vec<Check>> {
        let [memory, src, r0] = before;
        let numbers = [(3, memory), (1, src), (0, r0)];
        let store = slot(0x7b, 0x3a, -8, 0);
        let operation = slot(self.opcode(), 0x1a, -8, i32::from(self.detail));
        let lasts = [
            ("in memory", slot(0x79, 0xa0, -8, 0)),
            ("in the register", slot(0xbf, 0x10, 0, 0)),
            ("in R0", slot(0xbf, 0x00, 0, 0)),
        ];
        let mut checks = Vec::new(alloc);
        for ((shows, last), wanted) in lasts.iter().zip(after) {
            checks.push(Check {
                shows,
                program: program(alloc, &numbers, &[store, operation, *last])?,
                wanted,
            })?;
        }
        Ok(checks)
    }

    /// The programs that tell whether the operation does on these operands what is wanted: `dst src result`, if a
    /// jump's result is 1 if it is taken, or `memory src r0` before and after an atomic operation.
    pub fn checks(self, alloc: Global, numbers: &[u64]) -> Result<Vec<Check>> {
        match (self.form, numbers) {
            (Form::Arithmetic | Form::Extension, [dst, src, wanted]) => {
                self.binary(alloc, *dst, *src, *wanted)
            }
            (Form::Negation | Form::Swap, [dst, _, wanted]) => self.unary(alloc, *dst, *wanted),
            (Form::Jump, [dst, src, wanted]) => self.jump(alloc, *dst, *src, *wanted),
            (Form::Atomic, [memory, src, r0, memory_after, src_after, r0_after]) => self.atomic(
                alloc,
                [*memory, *src, *r0],
                [*memory_after, *src_after, *r0_after],
            ),
            _ => bail!("too many columns or too few"),
        }
    }
}

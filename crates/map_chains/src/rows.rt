//! Lists of row numbers.

ghost use Rattle.std.specs.Prelude.{◌≡◌, ◌≤◌, ◌^◌, IfOk};
ghost use Rattle.std.specs.List.{range_with_len};

use std::alloc::{AllocError, Global};

/// So many numbers, from 0 on.
pub fn each_row(alloc: Global, count: usize) -> Result<Vec<u32>, AllocError>
    requires { count ≤ 2 ^ 32 }
    ensures { IfOk result (λ rows. rows.items ≡ range_with_len 0 count) }
{
    let mut rows = Vec::with_capacity(alloc, count)?;
    for row in 0..count {
        rows.push(row as u32)?;
    }
    Ok(rows)
}

//! The fields of a line.
ghost use Rattle.std.specs.Prelude.{◌≡◌, map, IfOk};
ghost use Rattle.text_lines.specs.Fields.{fields};

use std::alloc::{AllocError, Global};

/// The pieces of a line between single spaces. Two spaces in a row have an empty field between them, and a line has at
/// least one field.
///
/// The only error is that memory is missing.
pub fn fields_of(alloc: Global, line: &[u8]) -> Result<Vec<&[u8]>, AllocError>
    ensures { IfOk result (λ v. map (λ f. f.now) v.items ≡ fields line.now) }
{
    line.split(|b| *b == b' ').collect(alloc)
}

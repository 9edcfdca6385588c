// A row of a right length, and its fields.
ghost use Rattle.std.specs.Prelude.{◌≡◌, ◌+◌, ◌≤◌, length};
ghost use Rattle.page.specs.Columns.{Sized};

pub(crate) mod reading;

/// A row of a right length.
#[derive(Clone, Copy)]
pub(crate) struct Row<'r> {
    bytes: &'r [u8],
    ghost sized: { Sized bytes.now },
}

/// So many bytes of a row, and the column of the first. A row has at most 347 columns.
#[derive(Clone, Copy)]
pub(crate) struct Field<'r> {
    column: usize,
    bytes: &'r [u8],
    ghost within: { column + length bytes.now ≤ 348 },
}

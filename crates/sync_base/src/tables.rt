//! Constant tables of bytes.
ghost use Rattle.std.specs.Prelude.{◌≡◌, ◌<◌, [], slice_index, slice_index_or};

/// R rows of C bytes.
#[derive(Clone, Copy)]
pub struct Table<const R: usize, const C: usize> {
    pub rows: [[u8; C]; R],
}

impl<const R: usize, const C: usize> Table<R, C> {
    /// The entry of a row and a column.
    pub fn at(&self, r: usize, c: usize) -> u8
        requires row { r < R }
        requires column { c < C }
        ensures { result ≡ slice_index (slice_index_or self.now.rows r []) c }
    {
        self.rows[r][c]
    }
}

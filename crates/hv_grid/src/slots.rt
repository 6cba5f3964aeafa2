//! The numbers of slots in a grid, row by row (specs/Slots.antt).

ghost use Rattle.std.specs.Prelude.{◌≡◌, ◌≤◌, ◌<◌, ◌+◌, ◌*◌};

/// The slot of a place in a grid of rows of one width, numbered row by row.
#[inline(always)]
pub(crate) fn grid_slot(row: u32, column: u32, width: u32) -> usize
    ensures value { result ≡ row * width + column }
    ensures within { column < width → row * width + column < (row + 1) * width }
{
    row as usize * width as usize + column as usize
}

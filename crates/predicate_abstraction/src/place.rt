//! Places in a table of rows and columns that is kept in one list, row by row.
//! A place takes one multiplication.

ghost use Rattle.std.specs.Prelude.{◌≡◌, ◌<◌, ◌*◌, ◌+◌, ◌^◌};

/// The place of the pair among all pairs of so many rows and columns, row by row.
pub fn place(rows: usize, columns: usize, row: usize, column: usize) -> usize
    requires row { row < rows }
    requires column { column < columns }
    requires small { rows * columns < 2 ^ 64 }
    ensures value { result ≡ row * columns + column }
    ensures within { result < rows * columns }
{
    row * columns + column
}

// Rows whose numbers have 16 bits.
ghost use Rattle.std.specs.Prelude.{◌≡◌, ◌<◌, IfOk, length, pos, slice_index_or, slice_set};
ghost use Rattle.xs_signal.specs.Lines.{entries_of};
ghost use Rattle.xs_rate.specs.Laws.{IsSmallRow};

use std::alloc::Global;
use xs_io::Memory;

// Puts the number at a column.
fn narrow_at(numbers: &[i32], column: usize, row: &mut [i16])
    requires there { column < length numbers.now }
    requires width { length row.old ≡ length numbers.now }
    requires small { IsSmallRow (entries_of numbers.now) }
    ensures { row.new ≡ slice_set row.old column (slice_index_or numbers.now column (pos 0)) }
{
    row[column] = numbers[column] as i16;
}

// Puts the numbers in the place of those of the row.
fn narrow_row(numbers: &[i32], row: &mut [i16])
    requires width { length row.old ≡ length numbers.now }
    requires small { IsSmallRow (entries_of numbers.now) }
    ensures { row.new ≡ numbers.now }
{
    'columns: for column in 0..numbers.len() {
        narrow_at(numbers, column, row);
    }
}

// A row of these numbers.
pub(crate) fn narrowed(alloc: Global, numbers: &[i32]) -> Result<Vec<i16>, Memory>
    requires { IsSmallRow (entries_of numbers.now) }
    ensures { IfOk result (λ row. row.items ≡ numbers.now) }
{
    let mut row = Vec::from_elem(alloc, 0, numbers.len()).map_err(|_| Memory)?;
    narrow_row(numbers, row.as_mut_slice());
    Ok(row)
}

// Puts the number at a column.
fn widen_at(numbers: &[i16], column: usize, row: &mut [i32])
    requires there { column < length numbers.now }
    requires width { length row.old ≡ length numbers.now }
    ensures { row.new ≡ slice_set row.old column (slice_index_or numbers.now column (pos 0)) }
{
    row[column] = i32::from(numbers[column]);
}

// Puts the numbers of a row in the place of those of another.
pub(crate) fn widen_row(numbers: &[i16], row: &mut [i32])
    requires { length row.old ≡ length numbers.now }
    ensures { row.new ≡ numbers.now }
{
    'columns: for column in 0..numbers.len() {
        widen_at(numbers, column, row);
    }
}

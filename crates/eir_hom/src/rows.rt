//! Trying the rows of a level.
ghost use Rattle.std.specs.Prelude.{◌≡◌, ◌≢◌, ℕ, ◌+◌, ◌*◌, ◌<◌, ◌≤◌, length, get_or};
ghost use Rattle.eir_hom.specs.Matching.{Bindings};
ghost use Rattle.eir_hom.specs.Columns.{AreBelow, AreReady, Tried, Scanned, row_at, slots_of};

use crate::columns::Column;

/// Binds the slots of the columns to the numbers of a row, and answers whether that can be done.
fn bind_row(columns: &[Column], row: &[usize], images: &mut [usize]) -> bool
    requires same { length row.now ≡ length columns.now }
    requires slots { AreBelow (slots_of columns.now) (length images.old) }
    ensures length { length images.new ≡ length images.old }
    ensures tried { (m : Bindings) → AreReady m columns.now images.old
        → Tried m columns.now row.now images.new result }
{
    for i in 0..columns.len() {
        let column = columns[i];
        let number = row[i];
        if column.is_new {
            images[column.slot] = number;
        } else if images[column.slot] != number {
            return false;
        }
    }
    true
}

/// The first cell from `from` on and before `to` that has the number, or `to`.
fn find_number(cells: &[usize], from: usize, to: usize, number: usize) -> usize
    requires from { from ≤ to }
    requires to { to ≤ length cells.now }
    ensures from { from ≤ result }
    ensures to { result ≤ to }
    ensures other { (k : ℕ) → from ≤ k → k < result → get_or cells.now k 0 ≢ number }
    ensures same { result < to → get_or cells.now result 0 ≡ number }
{
    for at in from..to {
        if cells[at] == number {
            return at;
        }
    }
    to
}

/// Tries the rows from `from` on and before `to`, of those that stand from the cell `first` on, up to the first that
/// can be bound; binds that one and answers it, or answers `to`.
pub(crate) fn scan_rows(
    columns: &[Column],
    cells: &[usize],
    first: usize,
    from: usize,
    to: usize,
    images: &mut [usize],
) -> usize
    requires from { from ≤ to }
    requires cells { first + to * length columns.now ≤ length cells.now }
    requires slots { AreBelow (slots_of columns.now) (length images.old) }
    ensures length { length images.new ≡ length images.old }
    ensures from { from ≤ result }
    ensures to { result ≤ to }
    ensures scanned { (m : Bindings) → AreReady m columns.now images.old
        → Scanned m columns.now (row_at cells.now first (length columns.now)) from to result images.new }
{
    let stride = columns.len();
    if stride == 1 && !columns[0].is_new {
        let number = images[columns[0].slot];
        return find_number(cells, first + from, first + to, number) - first;
    }
    for choice in from..to {
        let at = first + choice * stride;
        if bind_row(columns, &cells[at..at + stride], images) {
            return choice;
        }
    }
    to
}

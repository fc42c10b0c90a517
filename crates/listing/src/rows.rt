// What is done to the rows of a list, four words to a row.
ghost use Rattle.std.specs.Prelude.{◌+◌, ◌*◌, ◌≤◌, length};
ghost use Rattle.listing.specs.List.{set_at};
ghost use Rattle.listing.specs.Rows.{Cleared, Different, Unsorted, Sorted};

use stations::StationSet;

// Rows `from` to `to` - 1 become zero.
pub(crate) fn clear(list: &mut [u64], from: usize, to: usize)
    requires { (from ≤ to) × (to * 4 ≤ length list.old) }
    ensures { Cleared list.old from to list.new }
{
    list[from * 4..to * 4].fill(0);
}

// Puts row i in its place among the rows before it, which are in order. The library sorts elements, and a row is four elements of the list.
fn insert(list: &mut [u64], i: usize)
    requires { Unsorted list.old i }
    ensures { Sorted list.old (i + 1) list.new }
{
    let s = StationSet::of_row(list, i);
    for j in (0..i).rev() {
        let y = StationSet::of_row(list, j);
        if y.before(s) {
            s.put_row(list, j + 1);
            return;
        }
        y.put_row(list, j + 1);
    }
    s.put_row(list, 0);
}

// Puts the first g rows in order, by their numbers: no slice has a row as one element.
pub(crate) fn sort(list: &mut [u64], g: usize)
    requires { (g * 4 ≤ length list.old) × Different g (set_at list.old) }
    ensures { Sorted list.old g list.new }
{
    for i in 0..g {
        insert(list, i);
    }
}

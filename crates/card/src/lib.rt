// The refusal card, and the tests that every question about a table begins with.
#![tactic(auto)]

ghost use Rattle.std.specs.Prelude.{[], ◌∷◌, ◌≡◌, ℕ, ◌+◌, ◌*◌, ◌<◌, ◌≤◌, length};
ghost use Rattle.stations.specs.Words.{members};
ghost use Rattle.mesh.specs.Mesh.{R};
ghost use Rattle.mesh.specs.Table.{Fits, Fault};
ghost use Rattle.card.specs.Card.{number, number_of, value_of, FirstFailing, Says, LEVEL, LIST_ROOM, SET, STATION, PAIR, table_order};
ghost use Rattle.card.specs.Tests.{MirroredRow, RowFault};

pub use accepted::Mesh;
use stations::{Bits, StationSet};

mod accepted;

// The card (docs/CARD.md): each refusal with its number.
#[derive(Clone, Copy)]
pub enum Refusal {
    Level = 1,
    Stations = 2,
    TableLength = 3,
    Table = 4,
    ListRoom = 5,
    Set = 6,
    Station = 7,
    Mark = 8,
    Version = 9,
    Count = 10,
    Length = 11,
    Serial = 12,
    Link = 13,
    Room = 14,
    Rows = 15,
}

impl From<Refusal> for u64 {
    ghost from_gives = { λ r n. n ≡ number r };

    fn from(r: Refusal) -> u64 {
        r as u64
    }
}

// The number of a reply's refusal, 0 where the question is answered.
pub fn number_of<T>(reply: &Result<T, Refusal>) -> u64
    ensures { result ≡ number_of reply.now }
{
    match reply {
        Ok(_) => 0,
        Err(r) => u64::from(*r),
    }
}

// The number that a reply tells, 0 for a refusal.
pub fn value_of(reply: &Result<usize, Refusal>) -> u64
    ensures { result ≡ value_of reply.now }
{
    match reply {
        Ok(x) => *x as u64,
        Err(_) => 0,
    }
}

// 1: a level is 1 to 16.
pub fn test_level(k: usize) -> Result<(), Refusal>
    ensures { FirstFailing (LEVEL k ∷ []) (number_of result) }
{
    if k == 0 || 16 < k {
        return Err(Refusal::Level);
    }
    Ok(())
}

// R: the rows that a list at level k needs room for.
pub fn rows(n: usize, k: usize) -> usize
    ensures { result ≡ R n k }
{
    n.saturating_sub(k).div_ceil(2)
}

// 5: a list of `words` words has room for R rows.
pub fn test_list_room(n: usize, k: usize, words: usize) -> Result<(), Refusal>
    ensures { FirstFailing (LIST_ROOM n k words ∷ []) (number_of result) }
{
    if words / 4 < rows(n, k) {
        return Err(Refusal::ListRoom);
    }
    Ok(())
}

// 7: a station is a number below n.
pub fn test_station(n: usize, a: usize) -> Result<(), Refusal>
    ensures { FirstFailing (STATION n a ∷ []) (number_of result) }
{
    if n <= a {
        return Err(Refusal::Station);
    }
    Ok(())
}

// 7: a pair is two different numbers below n.
pub fn test_pair(n: usize, a: usize, b: usize) -> Result<(), Refusal>
    ensures { FirstFailing (PAIR n a b ∷ []) (number_of result) }
{
    test_station(n, a)?;
    test_station(n, b)?;
    if a == b {
        return Err(Refusal::Station);
    }
    Ok(())
}

// 6: a set is four words with no bit from n up. With n at 256 or more there is no such bit.
pub fn test_set(n: usize, set: &[u64]) -> Result<(), Refusal>
    ensures { FirstFailing (SET n set.now ∷ []) (number_of result) }
{
    if set.len() != 4 {
        return Err(Refusal::Set);
    }
    if 256 <= n {
        return Ok(());
    }
    let s = StationSet::of_row(set, 0);
    if !s.minus(StationSet::first_n(n)).is_empty() {
        return Err(Refusal::Set);
    }
    Ok(())
}

// Does each station of the row have station i in its own row? Each question tests its table so: going over words and their bits takes half the time of
// going over the row's stations. Of a word's stations what the rows of all of them have is kept, and looked at once.
fn mirrored(table: &[u64], i: usize, row: StationSet) -> bool
    requires { (i < 256) × Fits table.now (members row) }
    ensures { MirroredRow table.now i (members row) result }
{
    let words = row.words();
    for (q, word) in words.iter().enumerate() {
        let bits = Bits { word: *word };
        let mut seen = u64::MAX;
        for k in bits {
            let j = q * 64 + k;
            seen &= table[j * 4 + i / 64];
        }
        if seen >> (i % 64) & 1 != 1 {
            return false;
        }
    }
    true
}

// Has the row i a self link, a bit from n up, or a link that the other row lacks?
fn row_fails(table: &[u64], n: usize, i: usize) -> bool
    requires { (n ≤ 256) × (i < n) × (length table.now ≡ n * 4) }
    ensures { Says (RowFault n table.now i) result }
{
    let row = StationSet::of_row(table, i);
    row.has(i) || !row.minus(StationSet::first_n(n)).is_empty() || !mirrored(table, i, row)
}

// Has any row a fault?
fn table_fails(table: &[u64], n: usize) -> bool
    requires { (n ≤ 256) × (length table.now ≡ n * 4) }
    ensures { Says (Fault n table.now) result }
{
    (0..n).any(|i| row_fails(table, n, i))
}

// 2, 3, 4: at most 256 stations, 4n words, and no fault. No product with n is made before n is tested, and no word is read before the length is.
pub fn test_table(n: usize, table: &[u64]) -> Result<(), Refusal>
    ensures { FirstFailing (table_order n table.now) (number_of result) }
{
    if 256 < n {
        return Err(Refusal::Stations);
    }
    if table.len() != n * 4 {
        return Err(Refusal::TableLength);
    }
    if table_fails(table, n) {
        return Err(Refusal::Table);
    }
    Ok(())
}

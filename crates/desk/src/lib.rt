// The questions for C and Rust callers, whose replies are numbers since C has no `Result`. A slice is a pointer and then a count of elements. Each function
// but desk_first_row, which has no refusal, returns the refusal's number, 0 where the question is answered; the numbers lent for the reply are always
// written.
#![tactic(auto)]

ghost use Rattle.desk.specs.Desk.{FirstRowDesk, RoutesDesk, HoldingDesk, VerdictDesk, ListDesk, StationDesk, PairDesk, ReadDesk, WriteDesk, PageDesk};

use stations::StationSet;

// The order question: 0 where the first row comes first, 1 where the second does. The reply is the first `words` words of that row: all four, or
// none where one of the two rows hasn't four words.
#[unsafe(no_mangle)]
pub extern "C" fn desk_first_row(x: &[u64], y: &[u64], words: &mut u64) -> u64
    ensures { FirstRowDesk x.entry y.entry result words.new }
{
    *words = 0;
    if x.len() != 4 {
        return 0;
    }
    if y.len() != 4 {
        return 0;
    }
    *words = 4;
    let mine = StationSet::of_row(x, 0);
    let theirs = StationSet::of_row(y, 0);
    u64::from(theirs.before(mine))
}

// The routes question: 1 in `joined` for a linked pair, else the number of separate routes in `count`.
#[unsafe(no_mangle)]
pub extern "C" fn desk_routes(
    n: usize,
    table: &[u64],
    a: usize,
    b: usize,
    joined: &mut u64,
    count: &mut u64,
) -> u64
    ensures { RoutesDesk n table.now a b result joined.new count.new }
{
    let reply = routes::routes(n, table, a, b);
    *joined = routes::joined_of(&reply);
    *count = routes::count_of(&reply);
    card::number_of(&reply)
}

// The holding question: 0 for HOLDS, 1 for FEW, 2 for WEAK in `verdict`, and the four words of the weak set, 0 where there is none.
#[unsafe(no_mangle)]
pub extern "C" fn desk_holding(
    n: usize,
    table: &[u64],
    k: usize,
    set: &[u64],
    verdict: &mut u64,
    w0: &mut u64,
    w1: &mut u64,
    w2: &mut u64,
    w3: &mut u64,
) -> u64
    ensures { HoldingDesk n table.now k set.now result verdict.new w0.new w1.new w2.new w3.new }
{
    let reply = holding::holding(n, table, k, set);
    *verdict = holding::verdict_of(&reply);
    let weak = holding::weak_set_of(&reply);
    *w0 = weak.a;
    *w1 = weak.b;
    *w2 = weak.c;
    *w3 = weak.d;
    card::number_of(&reply)
}

// The holding question for the verdict alone: 0 for HOLDS, 1 for FEW, 2 for WEAK.
#[unsafe(no_mangle)]
pub extern "C" fn desk_verdict(
    n: usize,
    table: &[u64],
    k: usize,
    set: &[u64],
    verdict: &mut u64,
) -> u64
    ensures { VerdictDesk n table.now k set.now result verdict.new }
{
    let reply = holding::judged(n, table, k, set);
    *verdict = holding::verdict_of(&reply);
    card::number_of(&reply)
}

// The list question: the number of groups in `groups`, and the groups in the list.
#[unsafe(no_mangle)]
pub extern "C" fn desk_list(
    n: usize,
    table: &[u64],
    k: usize,
    list: &mut [u64],
    groups: &mut u64,
) -> u64
    ensures { ListDesk n table.now k list.old list.new result groups.new }
{
    let reply = groups::groups(n, table, k, list);
    *groups = card::value_of(&reply);
    card::number_of(&reply)
}

// The standing of a station.
#[unsafe(no_mangle)]
pub extern "C" fn desk_station_standing(
    n: usize,
    table: &[u64],
    a: usize,
    standing: &mut u64,
) -> u64
    ensures { StationDesk n table.now a result standing.new }
{
    let reply = standings::station_standing(n, table, a);
    *standing = card::value_of(&reply);
    card::number_of(&reply)
}

// The standing of a pair.
#[unsafe(no_mangle)]
pub extern "C" fn desk_pair_standing(
    n: usize,
    table: &[u64],
    a: usize,
    b: usize,
    standing: &mut u64,
) -> u64
    ensures { PairDesk n table.now a b result standing.new }
{
    let reply = standings::pair_standing(n, table, a, b);
    *standing = card::value_of(&reply);
    card::number_of(&reply)
}

// The reader of survey files: n serials and 4n table words, and the version, n and the number of links.
#[unsafe(no_mangle)]
pub extern "C" fn desk_read(
    bytes: &[u8],
    serials: &mut [u32],
    table: &mut [u64],
    version: &mut u64,
    n: &mut u64,
    links: &mut u64,
) -> u64
    ensures { ReadDesk bytes.now serials.old table.old serials.new table.new result version.new n.new links.new }
{
    let reply = reader::read(bytes, serials, table);
    let heading = reader::heading_of(&reply);
    *version = heading.version as u64;
    *n = heading.stations as u64;
    *links = heading.links as u64;
    card::number_of(&reply)
}

// The writer of survey files: the file's length in `length`.
#[unsafe(no_mangle)]
pub extern "C" fn desk_write(
    n: usize,
    serials: &[u32],
    table: &[u64],
    bytes: &mut [u8],
    length: &mut u64,
) -> u64
    ensures { WriteDesk n serials.now table.now bytes.old bytes.new result length.new }
{
    let written = writer::write(n, serials, table, bytes);
    *length = card::value_of(&written);
    card::number_of(&written)
}

// The night list: the page of a survey, as bytes in the lent buffer, and their number in `length`.
#[unsafe(no_mangle)]
pub extern "C" fn desk_night_list(survey: &[u8], page: &mut [u8], length: &mut u64) -> u64
    ensures { PageDesk survey.now page.old page.new result length.new }
{
    let printed = page::night_list(survey, page);
    *length = card::value_of(&printed);
    card::number_of(&printed)
}

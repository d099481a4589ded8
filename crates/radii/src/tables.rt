// The two tables of whole millimetres, and what codes and reports by either.
ghost use Rattle.std.specs.Prelude.{◌≡◌, ◌*◌, ◌-◌, ◌≤◌, ◌<◌, get_or};
ghost use Rattle.radii.specs.Rows.{IsRow};
ghost use Rattle.radii.specs.Rising.{Among, FirstAt};
ghost use Rattle.radii.specs.Tables.{CodedBy, ReportedBy, Halving, entries_in};

use crate::rows;
use crate::rows::Row;
use ground::Refusal;

#[derive(Clone, Copy)]
pub enum Table {
    Radii,
    Heights,
}

// The whole part of 10000·((11/10)^K - 1) millimetres, for K from 0 to 127.
const RADII: [u32; 128] = [
    0, 1000, 2100, 3310, 4641, 6105, 7715, 9487, 11435, 13579, 15937, 18531, 21384, 24522, 27974,
    31772, 35949, 40544, 45599, 51159, 57274, 64002, 71402, 79543, 88497, 98347, 109181, 121099,
    134209, 148630, 164494, 181943, 201137, 222251, 245476, 271024, 299126, 330039, 364043, 401447,
    442592, 487851, 537636, 592400, 652640, 718904, 791795, 871974, 960172, 1057189, 1163908,
    1281299, 1410429, 1552472, 1708719, 1880591, 2069650, 2277615, 2506377, 2758014, 3034816,
    3339298, 3674227, 4042650, 4447915, 4893707, 5384077, 5923485, 6516834, 7169517, 7887469,
    8677216, 9545938, 10501531, 11552685, 12708953, 13980849, 15379933, 16918927, 18611820,
    20474002, 22522402, 24775642, 27254206, 29980627, 32979690, 36278659, 39907525, 43899277,
    48290205, 53120226, 58433248, 64277573, 70706330, 77777964, 85556760, 94113436, 103525780,
    113879358, 125268293, 137796123, 151576735, 166735409, 183409950, 201751945, 221928139,
    244121953, 268535149, 295389664, 324929630, 357423593, 393166952, 432484648, 475734112,
    523308524, 575640376, 633205414, 696526955, 766180651, 842799716, 927080688, 1019789756,
    1121769732, 1233947705, 1357343476, 1493078824, 1642387706, 1806627477,
];

// The whole part of 45000·((41/40)^K - 1) millimetres, for K from 0 to 127.
const HEIGHTS: [u32; 128] = [
    0, 1125, 2278, 3460, 4671, 5913, 7186, 8490, 9828, 11198, 12603, 14043, 15519, 17032, 18583,
    20173, 21802, 23472, 25184, 26939, 28737, 30581, 32470, 34407, 36392, 38427, 40513, 42651,
    44842, 47088, 49390, 51750, 54169, 56648, 59189, 61794, 64464, 67200, 70005, 72880, 75827,
    78848, 81944, 85118, 88371, 91705, 95123, 98626, 102217, 105897, 109669, 113536, 117500,
    121562, 125726, 129994, 134369, 138853, 143450, 148161, 152990, 157940, 163013, 168214, 173544,
    179008, 184608, 190348, 196232, 202263, 208444, 214780, 221275, 227932, 234755, 241749, 248918,
    256266, 263797, 271517, 279430, 287541, 295854, 304376, 313110, 322063, 331239, 340645, 350287,
    360169, 370298, 380680, 391323, 402231, 413411, 424872, 436618, 448659, 461000, 473650, 486617,
    499907, 513530, 527493, 541805, 556476, 571513, 586925, 602723, 618917, 635515, 652527, 669966,
    687840, 706161, 724940, 744188, 763918, 784141, 804869, 826116, 847894, 870217, 893097, 916549,
    940588, 965228, 990484,
];

// The least code that covers x millimetres.
pub fn covering(table: Table, x: u32) -> Result<u8, Refusal>
    ensures { CodedBy table x result }
{
    if largest(table) < x {
        return Err(Refusal::UncertaintyTooLarge);
    }
    Ok(first_at_least(table, x) as u8)
}

// The most whole millimetres that code k covers.
pub fn covered(table: Table, k: u8) -> Result<u32, Refusal>
    ensures { ReportedBy table k result }
{
    if 127 < k {
        return Err(Refusal::OutOfRange);
    }
    Ok(entry(table, usize::from(k)))
}

fn largest(table: Table) -> u32
    ensures { result ≡ get_or (entries_in table) 127 0 }
{
    match table {
        Table::Radii => RADII[127],
        Table::Heights => HEIGHTS[127],
    }
}

// The entry at a place.
fn entry(table: Table, place: usize) -> u32
    requires { place < 128 }
    ensures { result ≡ get_or (entries_in table) place 0 }
{
    rows::in_row(row_of(table, place / 8), place % 8)
}

// The first place whose entry is at least x, which the last one is: the sixteen rows are halved four times, and in the row that is left
// the place is as many of its entries as are below x. There is no branch for the processor to guess.
fn first_at_least(table: Table, x: u32) -> usize
    requires { x ≤ get_or (entries_in table) 127 0 }
    ensures { FirstAt (entries_in table) x result }
{
    let of_15 = halved(table, x, 0, 8);
    let of_7 = halved(table, x, of_15, 4);
    let of_3 = halved(table, x, of_7, 2);
    let row = halved(table, x, of_3, 1);
    8 * row + rows::below_in(row_of(table, row), x)
}

// From the row and the 2·half - 1 after it, one of which has the first place, to the half that has it.
fn halved(table: Table, x: u32, row: usize, half: usize) -> usize
    requires { Halving (entries_in table) x row half }
    ensures { Among (entries_in table) x (8 * result) (8 * half - 1) }
{
    let next = row + half;
    let last = row_of(table, next - 1);
    if last.7 < x {
        return next;
    }
    row
}

// The table is a constant here, and each place of a row is one in `rows`: so the compiler keeps both tables beside the code, where it
// would lay one that it knows only at run time on the stack.
fn row_of(table: Table, row: usize) -> Row
    requires { row < 16 }
    ensures { IsRow (entries_in table) (8 * row) result }
{
    match table {
        Table::Radii => rows::row_of(&RADII, row),
        Table::Heights => rows::row_of(&HEIGHTS, row),
    }
}

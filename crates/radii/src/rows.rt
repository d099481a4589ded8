// A table of 128 numbers in rows of eight.
ghost use Rattle.std.specs.Prelude.{◌≡◌, [], ◌∷◌, ◌+◌, ◌*◌, ◌≤◌, ◌<◌, get_or, take};
ghost use Rattle.radii.specs.Rows.{IsRow, entries_of, below, TellsBelow};

// Eight entries of a table, one after the other.
#[derive(Clone, Copy)]
pub struct Row(
    pub u32,
    pub u32,
    pub u32,
    pub u32,
    pub u32,
    pub u32,
    pub u32,
    pub u32,
);

// The row of that number. Each of its places is a constant here, so the compiler keeps the table beside the code; one that is read at
// a place known only at run time would be laid on the stack at each call. The remainder shows it that there is no other row.
#[tactic(auto, using(crate::proofs::RowLaws::moved))]
pub fn row_of(table: &[u32; 128], row: usize) -> Row
    requires { row < 16 }
    ensures { IsRow table.now (8 * row) result }
{
    match row % 16 {
        0 => row_at(table, 0),
        1 => row_at(table, 8),
        2 => row_at(table, 16),
        3 => row_at(table, 24),
        4 => row_at(table, 32),
        5 => row_at(table, 40),
        6 => row_at(table, 48),
        7 => row_at(table, 56),
        8 => row_at(table, 64),
        9 => row_at(table, 72),
        10 => row_at(table, 80),
        11 => row_at(table, 88),
        12 => row_at(table, 96),
        13 => row_at(table, 104),
        14 => row_at(table, 112),
        15 => row_at(table, 120),
        _ => row_at(table, 0),
    }
}

// The eight entries from a place on.
fn row_at(table: &[u32; 128], first: usize) -> Row
    requires { first + 8 ≤ 128 }
    ensures { IsRow table.now first result }
{
    Row(
        table[first],
        table[first + 1],
        table[first + 2],
        table[first + 3],
        table[first + 4],
        table[first + 5],
        table[first + 6],
        table[first + 7],
    )
}

// The entry at a place of a row: a half of the row, a half of that, and one of two, with no jump.
pub fn in_row(row: Row, place: usize) -> u32
    requires { place < 8 }
    ensures { result ≡ get_or (entries_of row) place 0 }
{
    let half = place / 4;
    let first = one_of(row.0, row.4, half);
    let second = one_of(row.1, row.5, half);
    let third = one_of(row.2, row.6, half);
    let fourth = one_of(row.3, row.7, half);
    let pair = place / 2 % 2;
    one_of(
        one_of(first, third, pair),
        one_of(second, fourth, pair),
        place % 2,
    )
}

fn one_of(first: u32, second: u32, place: usize) -> u32
    requires { place < 2 }
    ensures { result ≡ get_or (first ∷ second ∷ []) place 0 }
{
    if place == 0 { first } else { second }
}

// How many of a row's first seven entries are below x.
pub fn below_in(row: Row, x: u32) -> usize
    ensures { result ≡ below x (take 7 (entries_of row)) }
{
    below_one(row.0, x)
        + below_one(row.1, x)
        + below_one(row.2, x)
        + below_one(row.3, x)
        + below_one(row.4, x)
        + below_one(row.5, x)
        + below_one(row.6, x)
}

fn below_one(entry: u32, x: u32) -> usize
    ensures { TellsBelow entry x result }
{
    usize::from(entry < x)
}

//! The counts of a comparison.

ghost use Rattle.std.specs.Prelude.{◌≡◌, count_by};
ghost use Rattle.tws_compare.specs.Counts.{counts_of};
ghost use Rattle.tws_compare.specs.Standing.{is_only_mine, is_only_theirs, is_mine_faster, is_theirs_faster, is_equal, is_tie};

use crate::row::Row;

/// How many rows of a comparison there are, and how many of each standing.
#[derive(Clone, Copy, Debug, PartialEq, Eq)]
pub struct Counts {
    /// All levels.
    pub levels: usize,
    /// Those that only my file has solved.
    pub only_mine: usize,
    /// Those that only their file has solved.
    pub only_theirs: usize,
    /// Those where both have a solution and mine has fewer ticks.
    pub mine_better: usize,
    /// Those where both have a solution and theirs has fewer ticks.
    pub theirs_better: usize,
    /// Those where both have the same solution.
    pub equal: usize,
    /// Those where both have other solutions with the same ticks.
    pub tied: usize,
}

fn only_mine(rows: &[Row]) -> usize
    ensures { result ≡ count_by (λ row. is_only_mine row.standing) rows.now }
{
    rows.iter()
        .filter(|row| row.standing.is_only_mine())
        .count()
}

fn only_theirs(rows: &[Row]) -> usize
    ensures { result ≡ count_by (λ row. is_only_theirs row.standing) rows.now }
{
    rows.iter()
        .filter(|row| row.standing.is_only_theirs())
        .count()
}

fn mine_better(rows: &[Row]) -> usize
    ensures { result ≡ count_by (λ row. is_mine_faster row.standing) rows.now }
{
    rows.iter()
        .filter(|row| row.standing.is_mine_faster())
        .count()
}

fn theirs_better(rows: &[Row]) -> usize
    ensures { result ≡ count_by (λ row. is_theirs_faster row.standing) rows.now }
{
    rows.iter()
        .filter(|row| row.standing.is_theirs_faster())
        .count()
}

fn equal(rows: &[Row]) -> usize
    ensures { result ≡ count_by (λ row. is_equal row.standing) rows.now }
{
    rows.iter().filter(|row| row.standing.is_equal()).count()
}

fn tied(rows: &[Row]) -> usize
    ensures { result ≡ count_by (λ row. is_tie row.standing) rows.now }
{
    rows.iter().filter(|row| row.standing.is_tie()).count()
}

impl Counts {
    /// The counts of these rows.
    pub fn of(rows: &[Row]) -> Self
        ensures { result ≡ counts_of rows.now }
    {
        Counts {
            levels: rows.len(),
            only_mine: only_mine(rows),
            only_theirs: only_theirs(rows),
            mine_better: mine_better(rows),
            theirs_better: theirs_better(rows),
            equal: equal(rows),
            tied: tied(rows),
        }
    }
}

//! Which rows are known, as a list of booleans.
ghost use Rattle.std.specs.Prelude.{ℕ, ◌≡◌, ◌+◌, ◌≤◌, ◌<◌, ◌&&◌, leb, ltb, true, length, replicate, slice_set};
ghost use Rattle.std.specs.List.{list_all};
ghost use Rattle.scr_memory.specs.Code.Remembering.{with_run};

// Which of the `n` rows from `first` on exist, as the first of them and the end.
pub(crate) fn rows_there(first: u32, n: u32, rows: u32) -> (u32, u32)
    ensures order { result.0 ≤ result.1 }
    ensures end { result.1 ≤ rows }
    ensures same { (r : ℕ) → r < rows → (leb result.0 r && ltb r result.1) ≡ (leb first r && ltb r (first + n)) }
{
    let from = first.min(rows);
    (from, from + n.min(rows - from))
}

// Sets every row to one value.
pub(crate) fn set_all(rows: &mut [bool], known: bool)
    ensures { rows.new ≡ replicate (length rows.old) known }
{
    for row in 0..rows.len() {
        rows[row] = known;
    }
}

// Sets one row to true, if it exists.
pub(crate) fn set_one(rows: &mut [bool], row: usize)
    ensures { rows.new ≡ slice_set rows.old row true }
{
    if row < rows.len() {
        rows[row] = true;
    }
}

// Sets rows `first..end` to one value.
pub(crate) fn set_run(rows: &mut [bool], first: usize, end: usize, known: bool)
    requires order { first ≤ end }
    requires end { end ≤ length rows.old }
    ensures { rows.new ≡ with_run known first end rows.old }
{
    for row in first..end {
        rows[row] = known;
    }
}

// Whether all rows are true.
pub(crate) fn are_all(rows: &[bool]) -> bool
    ensures { result ≡ list_all (λ known. known) rows.now }
{
    rows.iter().all(|known| *known)
}

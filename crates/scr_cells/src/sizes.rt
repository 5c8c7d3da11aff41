//! Sizes of screens.
ghost use Rattle.std.specs.Prelude.{◌↔◌, IsSome, IfSome, ◌≡◌};
ghost use Rattle.scr_cells.specs.PictureViews.{IsSize};

/// The size of a screen: 1 to 500 rows of 1 to 500 columns.
#[derive(Clone, Copy, Debug, PartialEq, Eq)]
pub struct Size {
    /// How many rows there are.
    pub rows: u32,
    /// How many columns there are.
    pub columns: u32,
    pub ghost in_range: { IsSize rows columns },
}

impl Size {
    /// The greatest number of rows, and of columns.
    pub const MOST: u32 = 500;

    /// A size of this many rows and columns; `None` if either is 0 or above 500.
    pub fn new(rows: u32, columns: u32) -> Option<Size>
        ensures fits { IsSome result ↔ IsSize rows columns }
        ensures rows { IfSome result (λ size. size.rows ≡ rows) }
        ensures columns { IfSome result (λ size. size.columns ≡ columns) }
    {
        let fits = |n: u32| (1..=Self::MOST).contains(&n);
        if fits(rows) && fits(columns) {
            Some(Size { rows, columns })
        } else {
            None
        }
    }
}

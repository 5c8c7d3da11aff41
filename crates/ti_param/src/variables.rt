//! The static variables, which last from one run to the next.

ghost use Rattle.std.specs.Prelude.{◌≡◌, pos, replicate};

use std::marker::Model;

/// The number of variables of each kind: one for each letter.
pub(crate) const LETTERS: usize = 26;

/// The static variables `A` to `Z` of terminfo(5), which last from one run to the next.
#[derive(Clone, Copy, PartialEq, Eq, Debug)]
pub struct Vars {
    values: [i32; LETTERS],
}

impl Model for Vars {
    ghost use Rattle.std.specs.Prelude.{List, ℤ};

    ghost Value = { List ℤ };

    ghost view = { λ v. v.values };

    ghost inverse = { λ xs. record { values = xs } };
}

/// All variables of a run, `a` and `A` first.
#[derive(Clone, Copy)]
pub(crate) struct Variables {
    pub dynamic: [i32; LETTERS],
    pub statics: [i32; LETTERS],
}

impl Vars {
    /// All variables at 0.
    pub fn new() -> Self
        ensures { result ≡ replicate 26 (pos 0) }
    {
        Vars {
            values: [0; LETTERS],
        }
    }

    /// The values, `A` first.
    pub(crate) fn values(&self) -> [i32; LETTERS]
        ensures { result ≡ self.now }
    {
        self.values
    }

    /// Sets all values, `A` first.
    pub(crate) fn set(&mut self, values: [i32; LETTERS])
        ensures { self.new ≡ values }
    {
        self.values = values;
    }
}

impl Default for Vars {
    /// All variables at 0.
    fn default() -> Self
        ensures { result ≡ replicate 26 (pos 0) }
    {
        Vars::new()
    }
}

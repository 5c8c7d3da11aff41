//! The marks of conditionals, `%? %t %e %;`, and their order (terminfo(5), 'Parameterized
//! Strings').

ghost use Rattle.std.specs.Prelude.{◌≡◌, [], length, Ok, Err};
ghost use Rattle.ti_param.specs.Code.Marks.{entered};
ghost use Rattle.ti_param.specs.Code.Fits.{Enters};

use crate::tokens::Token;
use std::marker::Model;

/// How many conditionals may be open at once.
pub const NESTING: usize = 32;

/// A section of a conditional: its test, or what is sent when it holds or fails.
#[derive(Clone, Copy, PartialEq, Eq)]
pub enum Section {
    Test,
    First,
    Second,
}

/// Why a mark does not fit.
#[derive(Clone, Copy)]
pub enum Misfit {
    /// It cannot be there.
    Misplaced,
    /// It opens a 33rd conditional.
    Deep,
}

/// The parts of the open conditionals, at the end of the array, the innermost first.
#[derive(Drop)]
pub struct Marks {
    parts: [Section; NESTING],
    first: usize,
}

impl Model for Marks {
    ghost use Rattle.std.specs.Prelude.{◌≡◌, List, ◌≤◌, drop, length};
    ghost use Rattle.ti_param.specs.declared.marks.Section.{Section};

    ghost Value = { List Section };

    ghost view = { λ m. drop m.first m.parts };

    ghost invariant = { λ m. (m.first ≤ 32) × (length m.parts ≡ 32) };
}

impl Marks {
    /// No conditional is open.
    pub fn new() -> Self
        ensures { result ≡ [] }
    {
        Marks {
            parts: [Section::Test; NESTING],
            first: NESTING,
        }
    }

    /// How many conditionals are open.
    pub fn open(&self) -> usize
        ensures { result ≡ length self.now }
    {
        NESTING - self.first
    }

    /// Goes past a directive or mark. Changes nothing if it does not fit.
    pub fn enter(&mut self, token: Token) -> Result<(), Misfit>
        ensures { Enters result self.new (entered token self.old) }
    {
        match token {
            Token::Do(_) => Ok(()),
            Token::If => self.open_one(),
            Token::Then => self.begin_first(),
            Token::Else => self.begin_second(),
            Token::EndIf => self.close(),
        }
    }

    // Opens a conditional.
    fn open_one(&mut self) -> Result<(), Misfit>
        ensures { Enters result self.new (entered Token.If self.old) }
    {
        if self.first == 0 {
            return Err(Misfit::Deep);
        }
        self.first -= 1;
        self.parts[self.first] = Section::Test;
        Ok(())
    }

    // Begins a then part, after a test or, as an else-if, after an else part.
    fn begin_first(&mut self) -> Result<(), Misfit>
        ensures { Enters result self.new (entered Token.Then self.old) }
    {
        if self.first == NESTING || self.parts[self.first] == Section::First {
            return Err(Misfit::Misplaced);
        }
        self.parts[self.first] = Section::First;
        Ok(())
    }

    // Begins an else part, after a then part.
    fn begin_second(&mut self) -> Result<(), Misfit>
        ensures { Enters result self.new (entered Token.Else self.old) }
    {
        if self.first == NESTING || self.parts[self.first] != Section::First {
            return Err(Misfit::Misplaced);
        }
        self.parts[self.first] = Section::Second;
        Ok(())
    }

    // Ends a conditional.
    #[tactic(auto, using(crate::proofs::BuilderLaws::closed))]
    fn close(&mut self) -> Result<(), Misfit>
        ensures { Enters result self.new (entered Token.EndIf self.old) }
    {
        if self.first == NESTING {
            return Err(Misfit::Misplaced);
        }
        self.first += 1;
        Ok(())
    }
}

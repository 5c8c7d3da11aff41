//! A second terminal, on which operations are tried before they are sent. The definitions are in `specs/Spares.antt`.
ghost use Rattle.std.specs.Prelude.{◌≡◌, ◌≤◌, ◌<◌, ◌⊎◌, ◌&&◌, ℕ, false, true, Some, IfOk, OnErr, OnOk, length, take};
ghost use Rattle.std.specs.Option.{is_some};
ghost use Rattle.scr_cells.specs.Grids.{grid_row, is_in_run};
ghost use Rattle.scr_term.specs.Operations.Steps.{runs, step};
ghost use Rattle.scr_terminal.specs.Marks.{AreNone, AreOfSize, HasAdded, HasMarked, is_marked, marked_in};
ghost use Rattle.scr_memory.specs.Memories.{IsMemory, all_followed, followed, is_known, is_placed, remembered, unknown};
ghost use Rattle.scr_memory.specs.Spares.{HasTried, IsAllMarked, IsReady, IsSpare, IsSpareOf, SpareLaws, are_sure, is_reset, is_sure, needs_no_reset};

use crate::laws::memory_runs;
use crate::memories::{Memory, has_one_pen, places_spot};
use scr_cells::{NoMemory, Size};
use scr_term::{Op, Profile, defined_laws, run_laws};
use scr_terminal::{Marks, Undefined};
use std::alloc::Global;
use std::marker::Model;

/// A second terminal beside what is remembered of one. Operations are tried on it before they are sent: it says whether
/// they are defined, and what the terminal shows after them. It marks the places in which it may differ from what is
/// remembered, so that only these are compared and copied.
#[derive(Drop)]
pub struct Spare {
    pub(crate) memory: Memory,
    pub(crate) marks: Marks,
}

impl Model for Spare {
    ghost use Rattle.scr_memory.specs.Spares.{IsSpare, SpareView};

    ghost Value = { SpareView };

    ghost view = { λ a. record { memory = a.memory; marks = a.marks } };

    ghost invariant = { λ a. IsSpare (record { memory = a.memory; marks = a.marks }) };
}

impl Spare {
    /// A spare for a memory of this size of which nothing is known. Fails only when memory runs out.
    pub fn new(alloc: Global, size: Size) -> Result<Spare, NoMemory>
        ensures { IfOk result (IsReady (unknown size.rows size.columns)) }
    {
        let memory = Memory::unknown(alloc, size)?;
        let marks = Marks::new(alloc, size)?;
        let _marks = marks.size();
        let _memory = memory.size();
        Ok(Spare { memory, marks })
    }

    /// A spare for this memory. Fails only when memory runs out.
    pub fn of(alloc: Global, memory: &Memory) -> Result<Spare, NoMemory>
        ensures { IfOk result (IsReady memory.now) }
    {
        let marks = Marks::new(alloc, memory.size())?;
        let memory = memory.try_clone(alloc)?;
        let _marks = marks.size();
        let _memory = memory.size();
        Ok(Spare { memory, marks })
    }

    /// What was tried, with how much of it is known.
    pub fn memory(&self) -> &Memory
        ensures memory { result.now ≡ self.now.memory }
        ensures sizes { IsSpare self.now }
    {
        &self.memory
    }

    /// Takes the cursor and the pen of the memory whose spare it is, and what is known.
    pub fn begin(&mut self, memory: &Memory)
        requires { IsReady memory.now self.old }
        ensures memory { self.new.memory ≡ memory.now }
        ensures marks { self.new.marks ≡ self.old.marks }
    {
        let _memory = memory.size();
        self.memory.resume(memory);
    }

    /// Marks columns `from..end` of a row, which are to be compared.
    pub fn mark(&mut self, row: u32, from: u32, end: u32)
        requires row { row < self.old.memory.rows }
        requires end { end ≤ self.old.memory.columns }
        ensures memory { self.new.memory ≡ self.old.memory }
        ensures marks { HasAdded (is_in_run row from end) self.old.marks self.new.marks }
    {
        let _memory = self.memory.size();
        self.marks.mark(row, from, end);
    }

    /// Marks every place, so that all is compared.
    pub fn mark_all(&mut self)
        ensures memory { self.new.memory ≡ self.old.memory }
        ensures marked { IsAllMarked self.new }
    {
        let size = self.memory.size();
        self.marks.mark_rows(0, size.rows);
    }

    /// The first row with a mark, and the end of the rows with marks.
    pub fn marked_rows(&self) -> (u32, u32)
        ensures end { result.1 ≤ self.now.memory.rows }
        ensures outside { (r c : ℕ) → (r < result.0) ⊎ (result.1 ≤ r) → is_marked self.now.marks r c ≡ false }
    {
        self.marks.rows()
    }

    /// The first marked column of a row, and the end of the marked ones, which is not behind the first if there are none.
    pub fn marked_columns(&self, row: u32) -> (u32, u32)
        requires { row < self.now.memory.rows }
        ensures value { result ≡ marked_in self.now.marks row }
        ensures end { result.1 ≤ self.now.memory.columns }
    {
        self.marks.columns(row)
    }

    /// Executes operations on the spare and marks what they change. Returns `Undefined` if one is undefined where it
    /// comes. What is known is not followed.
    pub fn run(&mut self, profile: &Profile, ops: &[Op]) -> Result<(), Undefined>
        requires rows { self.old.memory.rows ≡ profile.now.rows }
        requires columns { self.old.memory.columns ≡ profile.now.columns }
        ensures run { OnOk result (runs profile.now self.old.memory.state ops.now ≡ Some self.new.memory.state) }
        ensures undefined { OnErr result (is_some (runs profile.now self.old.memory.state ops.now) ≡ false) }
        ensures tried { HasTried self.old self.new }
    {
        run_laws();
        let mut done = 0;
        while done < ops.len() {
            done += self.run_next(profile, &ops[done..])?;
        }
        Ok(())
    }

    // Executes the characters that `ops` begins with and that fit in one row, or one operation. Returns how many.
    fn run_next(&mut self, profile: &Profile, ops: &[Op]) -> Result<usize, Undefined>
        requires some { 0 < length ops.now }
        requires rows { self.old.memory.rows ≡ profile.now.rows }
        requires columns { self.old.memory.columns ≡ profile.now.columns }
        ensures some { IfOk result (λ n. 0 < n) }
        ensures inside { IfOk result (λ n. n ≤ length ops.now) }
        ensures run { IfOk result (λ n. runs profile.now self.old.memory.state (take n ops.now) ≡ Some self.new.memory.state) }
        ensures undefined { OnErr result (is_some (runs profile.now self.old.memory.state ops.now) ≡ false) }
        ensures tried { HasTried self.old self.new }
    {
        let _memory = self.memory.size();
        self.memory.try_next(profile, ops, &mut self.marks)
    }

    /// Follows operations from what is known, and marks every place. Returns `Undefined` if one is undefined where it
    /// comes, or needs what is not known then: the pen, unless the terminal has only one and nothing to turn off, or the
    /// cursor's place, unless it places the cursor. `Reset` needs nothing.
    pub fn follow(&mut self, profile: &Profile, ops: &[Op]) -> Result<(), Undefined>
        requires rows { self.old.memory.rows ≡ profile.now.rows }
        requires columns { self.old.memory.columns ≡ profile.now.columns }
        ensures sure { OnOk result (are_sure profile.now ops.now self.old.memory ≡ true) }
        ensures unsure { OnErr result (are_sure profile.now ops.now self.old.memory ≡ false) }
        ensures followed { OnOk result (self.new.memory ≡ all_followed profile.now ops.now self.old.memory) }
        ensures rows { self.new.memory.rows ≡ self.old.memory.rows }
        ensures columns { self.new.memory.columns ≡ self.old.memory.columns }
        ensures marked { IsAllMarked self.new }
    {
        self.mark_all();
        self.memory.follow_surely(profile, ops)
    }

    /// Shows again what is remembered, with no marks.
    pub fn back(&mut self, memory: &Memory)
        requires { IsSpareOf memory.now self.old }
        ensures { IsReady memory.now self.new }
    {
        let _memory = memory.size();
        let _own = self.memory.size();
        let _marks = self.marks.size();
        self.memory
            .terminal
            .copy_marked(&memory.terminal, &self.marks);
        self.marks.clear();
    }
}

impl Memory {
    /// Takes over what operations led to on the spare: all is known then.
    pub fn take(&mut self, spare: &mut Spare)
        requires { IsSpareOf self.old spare.old }
        ensures memory { self.new ≡ remembered self.old.rows self.old.columns spare.old.memory.state }
        ensures spare { spare.new.memory ≡ spare.old.memory }
        ensures ready { IsReady self.new spare.new }
    {
        let _memory = self.size();
        let _own = spare.memory.size();
        let _marks = spare.marks.size();
        self.terminal
            .copy_marked(&spare.memory.terminal, &spare.marks);
        self.terminal
            .resume(spare.memory.terminal.spot(), spare.memory.terminal.pen());
        self.know_rows();
        self.spot = true;
        self.pen = true;
        spare.marks.clear();
    }

    // Takes the cursor, the pen and what is known from a memory that shows the same.
    fn resume(&mut self, other: &Memory)
        requires rows { self.old.rows ≡ other.now.rows }
        requires columns { self.old.columns ≡ other.now.columns }
        requires grid { self.old.state.grid ≡ other.now.state.grid }
        ensures { self.new ≡ other.now }
    {
        let _other = other.size();
        let _own = self.size();
        self.terminal
            .resume(other.terminal.spot(), other.terminal.pen());
        self.rows.copy_from_slice(&other.rows);
        self.all_rows = other.all_rows;
        self.spot = other.spot;
        self.pen = other.pen;
    }

    // Executes the characters that `ops` begins with and that fit in one row, or one operation, and marks what they
    // change. Returns how many.
    fn try_next(
        &mut self,
        profile: &Profile,
        ops: &[Op],
        marks: &mut Marks,
    ) -> Result<usize, Undefined>
        requires some { 0 < length ops.now }
        requires rows { profile.now.rows ≡ self.old.rows }
        requires columns { profile.now.columns ≡ self.old.columns }
        requires size { AreOfSize self.old.rows self.old.columns marks.old }
        ensures some { IfOk result (λ n. 0 < n) }
        ensures inside { IfOk result (λ n. n ≤ length ops.now) }
        ensures run { IfOk result (λ n. runs profile.now self.old.state (take n ops.now) ≡ Some self.new.state) }
        ensures undefined { OnErr result (is_some (runs profile.now self.old.state ops.now) ≡ false) }
        ensures rows { self.new.rows ≡ self.old.rows }
        ensures columns { self.new.columns ≡ self.old.columns }
        ensures size { AreOfSize self.old.rows self.old.columns marks.new }
        ensures marks { HasMarked self.old.state.grid self.new.state.grid marks.old marks.new }
    {
        let characters = self.terminal.mark_characters(profile, ops, marks);
        let _written = self.terminal.size();
        if characters > 0 {
            return Ok(characters);
        }
        let is_defined = self.terminal.mark_step(profile, ops[0], marks).is_ok();
        let _stepped = self.terminal.size();
        if !is_defined {
            return Err(Undefined);
        }
        Ok(1)
    }

    // Follows operations, each of which needs only what is known when it comes. Stops at one that needs more or is
    // undefined.
    fn follow_surely(&mut self, profile: &Profile, ops: &[Op]) -> Result<(), Undefined>
        requires rows { profile.now.rows ≡ self.old.rows }
        requires columns { profile.now.columns ≡ self.old.columns }
        ensures sure { OnOk result (are_sure profile.now ops.now self.old ≡ true) }
        ensures unsure { OnErr result (are_sure profile.now ops.now self.old ≡ false) }
        ensures followed { OnOk result (self.new ≡ all_followed profile.now ops.now self.old) }
        ensures rows { self.new.rows ≡ self.old.rows }
        ensures columns { self.new.columns ≡ self.old.columns }
    {
        let mut done = 0;
        while done < ops.len() {
            done += self.follow_sure(profile, &ops[done..])?;
        }
        Ok(())
    }

    // Follows the characters that `ops` begins with and that fit in one row, or one operation, if what it needs is known.
    // Returns how many.
    fn follow_sure(&mut self, profile: &Profile, ops: &[Op]) -> Result<usize, Undefined>
        requires some { 0 < length ops.now }
        requires rows { profile.now.rows ≡ self.old.rows }
        requires columns { profile.now.columns ≡ self.old.columns }
        ensures some { IfOk result (λ n. 0 < n) }
        ensures inside { IfOk result (λ n. n ≤ length ops.now) }
        ensures sure { IfOk result (λ n. are_sure profile.now (take n ops.now) self.old ≡ true) }
        ensures unsure { OnErr result (are_sure profile.now ops.now self.old ≡ false) }
        ensures followed { IfOk result (λ n. self.new ≡ all_followed profile.now (take n ops.now) self.old) }
        ensures rows { self.new.rows ≡ self.old.rows }
        ensures columns { self.new.columns ≡ self.old.columns }
    {
        let characters = self.follow_known(profile, ops);
        if characters > 0 {
            return Ok(characters);
        }
        if self.follow_one(profile, ops[0]) {
            Ok(1)
        } else {
            Err(Undefined)
        }
    }

    // Follows the characters that `ops` begins with and that fit in one row, none if the cursor or the pen is not known.
    // Returns how many.
    fn follow_known(&mut self, profile: &Profile, ops: &[Op]) -> usize
        requires rows { profile.now.rows ≡ self.old.rows }
        requires columns { profile.now.columns ≡ self.old.columns }
        ensures inside { result ≤ length ops.now }
        ensures sure { are_sure profile.now (take result ops.now) self.old ≡ true }
        ensures followed { self.new ≡ all_followed profile.now (take result ops.now) self.old }
    {
        if !self.spot {
            return 0;
        }
        if !self.pen {
            return 0;
        }
        self.follow_characters(profile, ops)
    }

    // Follows an operation, if what it needs is known and it is defined; else returns false and changes nothing.
    fn follow_one(&mut self, profile: &Profile, op: Op) -> bool
        requires rows { profile.now.rows ≡ self.old.rows }
        requires columns { profile.now.columns ≡ self.old.columns }
        ensures answer { result ≡ (is_sure profile.now self.old op && is_some (step profile.now self.old.state op)) }
        ensures followed { result ≡ true → self.new ≡ followed profile.now op self.old }
        ensures same { result ≡ false → self.new ≡ self.old }
    {
        if !self.is_sure(profile, op) {
            return false;
        }
        if !self.step(profile, op) {
            return false;
        }
        self.learn(profile, op);
        true
    }

    // Whether what an operation needs is known.
    fn is_sure(&self, profile: &Profile, op: Op) -> bool
        ensures { result ≡ is_sure profile.now self.now op }
    {
        is_reset(op) || ((self.pen || needs_no_reset(profile)) && (self.spot || places_spot(op)))
    }
}

// Whether a terminal has only one pen, and nothing that turns attributes off.
fn needs_no_reset(profile: &Profile) -> bool
    ensures { result ≡ needs_no_reset profile.now }
{
    has_one_pen(profile) && !profile.can_reset()
}

// Whether an operation turns attributes off, in default colours.
fn is_reset(op: Op) -> bool
    ensures { result ≡ is_reset op }
{
    matches!(op, Op::Reset)
}

/// A spare that shows what is remembered is the memory's, and stays ready for it when something is forgotten. Operations
/// that need only what is known are defined from every state that agrees with it.
pub fn spare_laws()
    ensures { SpareLaws }
{
    defined_laws();
    memory_runs();
}

//! Rows of elements of one type: what pictures, surfaces and emulated screens are made of.
//!
//! The rows are in one vector, and only this file computes where a row begins in it.
ghost use Rattle.std.specs.Prelude.{ℕ, ◌≡◌, ◌+◌, ◌-◌, ◌*◌, ◌<◌, ◌≤◌, Option, length, take, drop, replicate, slice_range, IfOk, OnOk, OnErr, [], ◌∷◌, ◌++◌, ◌^◌};
ghost use Rattle.scr_cells.specs.Grids.{IsGrid, changed_run, grid_at, grid_of, grid_row, grid_with, grid_with_run, line_with_run};
ghost use Rattle.scr_cells.specs.MadeRuns.{made_while};

use crate::NoMemory;
use std::alloc::Global;
use std::marker::Model;

/// Rows of elements, from the top, each with its elements from the left. Rows and columns are counted from 0.
#[derive(Drop)]
pub struct Grid<T> {
    rows: u32,
    columns: u32,
    // The rows one after another.
    items: Vec<T>,
}

impl<T> Model for Grid<T> {
    ghost use Rattle.std.specs.Prelude.{◌≡◌, ◌*◌, length};
    ghost use Rattle.scr_cells.specs.Grids.{GridView, grid_code, rows_of};

    ghost Value = { GridView T };

    ghost coded = { grid_code T.code };

    ghost view = { λ a. record { rows = a.rows; columns = a.columns; lines = rows_of a.rows a.columns a.items.items } };

    ghost invariant = { λ a. length a.items.items ≡ a.rows * a.columns };
}

impl<T: Copy> Grid<T> {
    /// Makes a grid of this many rows and columns with the same element everywhere. Fails only when memory runs out.
    pub fn new(alloc: Global, rows: u32, columns: u32, element: T) -> Result<Grid<T>, NoMemory>
        ensures { IfOk result (λ grid. grid ≡ record { rows = rows; columns = columns; lines = grid_of rows columns (λ _ _. element) }) }
    {
        let items = constant(alloc, rows as usize * columns as usize, element)?;
        Ok(Grid {
            rows,
            columns,
            items,
        })
    }

    /// Makes a grid of no rows, with room for this many rows of this many columns. Fails only when memory runs out.
    pub fn with_room(alloc: Global, rows: u32, columns: u32) -> Result<Grid<T>, NoMemory>
        ensures { IfOk result (λ grid. grid ≡ record { rows = 0; columns = columns; lines = [] }) }
    {
        let items = Vec::with_capacity(alloc, rows as usize * columns as usize)?;
        Ok(Grid {
            rows: 0,
            columns,
            items,
        })
    }

    /// Makes a grid of the same elements. Fails only when memory runs out.
    pub fn try_clone(&self, alloc: Global) -> Result<Grid<T>, NoMemory>
        ensures { IfOk result (λ grid. grid ≡ self.now) }
    {
        let mut items = Vec::with_capacity(alloc, self.items.len())?;
        items.extend_from_slice(&self.items)?;
        Ok(Grid {
            rows: self.rows,
            columns: self.columns,
            items,
        })
    }

    /// Adds a row of as many elements as there are columns at the end. Fails only when memory runs out, and nothing is
    /// changed then.
    pub fn push_row(&mut self, row: &[T]) -> Result<(), NoMemory>
        requires few { self.old.rows < 4294967295 }
        requires width { length row.now ≡ self.old.columns }
        ensures ok { OnOk result (self.new ≡ record self.old { rows = self.old.rows + 1; lines = self.old.lines ++ row.now ∷ [] }) }
        ensures err { OnErr result (self.new ≡ self.old) }
    {
        self.items.extend_from_slice(row)?;
        self.rows += 1;
        Ok(())
    }

    /// How many rows there are.
    pub fn rows(&self) -> u32
        ensures value { result ≡ self.now.rows }
        ensures grid { IsGrid self.now.rows self.now.columns self.now.lines }
    {
        self.rows
    }

    /// How many columns there are.
    pub fn columns(&self) -> u32
        ensures value { result ≡ self.now.columns }
        ensures grid { IsGrid self.now.rows self.now.columns self.now.lines }
    {
        self.columns
    }

    /// The elements of a row, as many as there are columns.
    pub fn row(&self, row: u32) -> &[T]
        requires { row < self.now.rows }
        ensures elements { result.now ≡ grid_row self.now.lines row }
        ensures len { length result.now ≡ self.now.columns }
    {
        let start = self.place(row, 0);
        &self.items[start..start + self.columns as usize]
    }

    /// The elements of a row in columns `from..end`.
    pub fn part(&self, row: u32, from: u32, end: u32) -> &[T]
        requires row { row < self.now.rows }
        requires order { from ≤ end }
        requires end { end ≤ self.now.columns }
        ensures elements { result.now ≡ slice_range (grid_row self.now.lines row) from end }
        ensures len { length result.now ≡ end - from }
    {
        let start = self.place(row, from);
        &self.items[start..start + (end - from) as usize]
    }

    /// The element at a row and a column.
    pub fn at(&self, row: u32, column: u32) -> T
        requires row { row < self.now.rows }
        requires column { column < self.now.columns }
        ensures { (other : T) → result ≡ grid_at other self.now.lines row column }
    {
        self.items[self.place(row, column)]
    }

    /// Puts an element in one place. Nothing else changes.
    pub fn put(&mut self, row: u32, column: u32, element: T)
        requires row { row < self.old.rows }
        requires column { column < self.old.columns }
        ensures { self.new ≡ record self.old { lines = grid_with self.old.lines row column element } }
    {
        let place = self.place(row, column);
        self.items[place] = element;
    }

    /// Fills columns `from..end` of a row with an element. Nothing else changes.
    pub fn fill(&mut self, row: u32, from: u32, end: u32, element: T)
        requires row { row < self.old.rows }
        requires order { from ≤ end }
        requires end { end ≤ self.old.columns }
        ensures { self.new ≡ record self.old { lines = grid_with_run self.old.lines row from (replicate (end - from) element) } }
    {
        let start = self.place(row, from);
        let count = (end - from) as usize;
        fill_all(&mut self.items[start..start + count], element);
    }

    /// Puts an element in every place.
    pub fn fill_every(&mut self, element: T)
        ensures { self.new ≡ record self.old { lines = grid_of self.old.rows self.old.columns (λ _ _. element) } }
    {
        fill_all(&mut self.items, element);
    }

    /// Writes a run of elements into a row from column `from` on. Nothing else changes.
    pub fn lay(&mut self, row: u32, from: u32, run: &[T])
        requires row { row < self.old.rows }
        requires end { from + length run.now ≤ self.old.columns }
        ensures { self.new ≡ record self.old { lines = grid_with_run self.old.lines row from run.now } }
    {
        let start = self.place(row, from);
        copy_all(&mut self.items[start..start + run.len()], run);
    }

    /// Writes what `make` makes of each source, one after another, into a row from column `from` on. It ends at the end
    /// of the row, or at the first source of which `make` makes nothing. Gives how many elements it wrote. Nothing else
    /// changes.
    pub fn lay_while<S: Copy, F: Fn(S) -> Option<T>>(
        &mut self,
        row: u32,
        from: u32,
        sources: &[S],
        make: F,
    ) -> usize
        requires row { row < self.old.rows }
        requires from { from ≤ self.old.columns }
        requires callable { (x : S) → F.pre make x }
        ensures count { (f : S → Option T) → ((x : S) (y : Option T) → F.post make x y → y ≡ f x) → result ≡ length (made_while f (take (self.old.columns - from) sources.now)) }
        ensures laid { (f : S → Option T) → ((x : S) (y : Option T) → F.post make x y → y ≡ f x) → self.new ≡ record self.old { lines = grid_with_run self.old.lines row from (made_while f (take (self.old.columns - from) sources.now)) } }
    {
        let start = self.place(row, from);
        let count = ((self.columns - from) as usize).min(sources.len());
        lay_made(
            &mut self.items[start..start + count],
            &sources[..count],
            make,
        )
    }

    /// Copies columns `start..end` of a row to a row from column `to` on, also if the two overlap. Nothing else
    /// changes.
    pub fn copy(&mut self, source: u32, start: u32, end: u32, row: u32, to: u32)
        requires source { source < self.old.rows }
        requires order { start ≤ end }
        requires end { end ≤ self.old.columns }
        requires row { row < self.old.rows }
        requires to { to + (end - start) ≤ self.old.columns }
        ensures { self.new ≡ record self.old { lines = grid_with_run self.old.lines row to (slice_range (grid_row self.old.lines source) start end) } }
    {
        let from = self.place(source, start);
        let place = self.place(row, to);
        copy_run(&mut self.items, from, place, (end - start) as usize);
    }

    /// Replaces each element in columns `from..end` of a row by what `change` makes of its column and itself. Nothing
    /// else changes.
    pub fn change<F: Fn(u32, T) -> T>(&mut self, row: u32, from: u32, end: u32, change: F)
        requires row { row < self.old.rows }
        requires order { from ≤ end }
        requires end { end ≤ self.old.columns }
        requires callable { (column : ℕ) (x : T) → from ≤ column → column < end → F.pre change column x }
        ensures { (f : ℕ → T → T) → ((column : ℕ) (x y : T) → F.post change column x y → y ≡ f column x) → self.new ≡ record self.old { lines = grid_with_run self.old.lines row from (changed_run f from (slice_range (grid_row self.old.lines row) from end)) } }
    {
        let start = self.place(row, from);
        let count = (end - from) as usize;
        change_all(&mut self.items[start..start + count], from, change);
    }

    // The index of the element at a row and a column.
    fn place(&self, row: u32, column: u32) -> usize
        requires row { row < self.now.rows }
        requires column { column ≤ self.now.columns }
        ensures { result ≡ row * self.now.columns + column }
    {
        row as usize * self.columns as usize + column as usize
    }
}

// The same element, `count` times.
fn constant<T: Copy>(alloc: Global, count: usize, element: T) -> Result<Vec<T>, NoMemory>
    ensures { IfOk result (λ items. items.items ≡ replicate count element) }
{
    let mut items = Vec::with_capacity(alloc, count)?;
    items.resize(count, element)?;
    Ok(items)
}

// Fills a slice with one element.
fn fill_all<T: Copy>(elements: &mut [T], element: T)
    ensures { elements.new ≡ replicate (length elements.old) element }
{
    for place in 0..elements.len() {
        elements[place] = element;
    }
}

// Copies the elements of a slice to another of the same length.
fn copy_all<T: Copy>(elements: &mut [T], run: &[T])
    requires { length elements.old ≡ length run.now }
    ensures { elements.new ≡ run.now }
{
    elements.copy_from_slice(run);
}

// Writes what a function makes of each source into a slice of as many places, up to the first of which it makes
// nothing. Gives how many it wrote.
fn lay_made<S: Copy, T: Copy, F: Fn(S) -> Option<T>>(
    elements: &mut [T],
    sources: &[S],
    make: F,
) -> usize
    requires many { length elements.old ≡ length sources.now }
    requires callable { (x : S) → F.pre make x }
    ensures count { (f : S → Option T) → ((x : S) (y : Option T) → F.post make x y → y ≡ f x) → result ≡ length (made_while f sources.now) }
    ensures laid { (f : S → Option T) → ((x : S) (y : Option T) → F.post make x y → y ≡ f x) → elements.new ≡ line_with_run elements.old 0 (made_while f sources.now) }
{
    for place in 0..sources.len() {
        let Some(element) = make(sources[place]) else {
            return place;
        };
        elements[place] = element;
    }
    sources.len()
}

// Replaces each element of a slice by what a function makes of its column and itself; the first one is in column
// `from`.
fn change_all<T: Copy, F: Fn(u32, T) -> T>(elements: &mut [T], from: u32, change: F)
    requires fits { from + length elements.old < 2 ^ 32 }
    requires callable { (column : ℕ) (x : T) → from ≤ column → column < from + length elements.old → F.pre change column x }
    ensures len { length elements.new ≡ length elements.old }
    ensures changed { (f : ℕ → T → T) → ((column : ℕ) (x y : T) → F.post change column x y → y ≡ f column x) → elements.new ≡ changed_run f from elements.old }
{
    for place in 0..elements.len() {
        let element = change(from + place as u32, elements[place]);
        elements[place] = element;
    }
}

// Copies elements from one place on to the places from another on. Parts that do not overlap are copied in one piece.
fn copy_run<T: Copy>(elements: &mut [T], from: usize, to: usize, count: usize)
    requires source { from + count ≤ length elements.old }
    requires target { to + count ≤ length elements.old }
    ensures { elements.new ≡ line_with_run elements.old to (take count (drop from elements.old)) }
{
    if to + count <= from {
        let (target, source) = elements.split_at_mut(from);
        target[to..to + count].copy_from_slice(&source[..count]);
    } else if from + count <= to {
        let (source, target) = elements.split_at_mut(to);
        target[..count].copy_from_slice(&source[from..from + count]);
    } else {
        copy_overlapping(elements, from, to, count);
    }
}

// The same if the two overlap.
#[inline(never)]
fn copy_overlapping<T: Copy>(elements: &mut [T], from: usize, to: usize, count: usize)
    requires source { from + count ≤ length elements.old }
    requires target { to + count ≤ length elements.old }
    ensures { elements.new ≡ line_with_run elements.old to (take count (drop from elements.old)) }
{
    elements.copy_within(from..from + count, to);
}

//! Writers that report what they took and count their failures.
ghost use Rattle.std.specs.Prelude.{◌≡◌, false, true, ℕ, ⊤, List, Option};
ghost use Rattle.std.specs.Io.{WritesAtMost};
ghost use Rattle.std.specs.Io.KnownBytes.{Keeps, WriteAppends};
ghost use Rattle.curses.specs.Writers.{FlushAnswer, WriteAnswer, WriterView, counted, finished, finishes_of, is_failed_finish, is_failed_put, took_none};

use std::io::{Result, Write};

/// A writer that reports which bytes it took, if they are known, and counts its failures and its finishes.
///
/// `Screen::doupdate`, `start` and `close` offer it one text at a time by `put`: what is owed, the text of each
/// operation, and the opening or closing text. If a put takes only a beginning, the next one offers the rest. At the
/// end there is one `finish`, if no put failed and the writer accepted something. All counts only grow, and stay at
/// their greatest value.
pub trait Counted {
    // What it reports of itself.
    ghost told: { Self → WriterView };

    /// Takes a piece, or a beginning of it, and gives how many bytes it took. It took none if it gives an error.
    ///
    /// A put of a piece that is not empty counts as failed if it gives an error or 0.
    fn put(&mut self, piece: &[u8]) -> Result<usize>
        ensures bound { WritesAtMost result piece.now }
        ensures bytes { WriteAppends (told self.old).taken (told self.new).taken result piece.now }
        ensures puts { (told self.new).failed_puts ≡ counted (is_failed_put piece.now result) (told self.old).failed_puts }
        ensures finishes { (told self.new).finishes ≡ (told self.old).finishes }
        ensures last { (told self.new).is_open ≡ true };

    /// Makes what was accepted reach the terminal, as a flush does. It counts as failed if it gives an error.
    fn finish(&mut self) -> Result<()>
        ensures bytes { Keeps (told self.old).taken (told self.new).taken }
        ensures puts { (told self.new).failed_puts ≡ (told self.old).failed_puts }
        ensures finishes { (told self.new).finishes ≡ finished (is_failed_finish result) (told self.old).finishes }
        ensures last { (told self.new).is_open ≡ false };
}

/// What a `Device` writes to. Any `Write` is one, and of it `writes` and `flushes` say what that trait says: how much of
/// a piece is accepted at most, and which bytes it holds then, if they are known; not which answer it gives, nor that it
/// was asked. A writer of one's own can say by them what exactly it does; `Device` passes that on.
pub trait Output {
    // The bytes that it holds, if they are known.
    ghost holds: { Self → Option (List ℕ) };

    // What a write of a piece, and a flush, answer and leave.
    ghost writes: { Self → List ℕ → WriteAnswer → Self → Type 0 } = { λ _ _ _ _. ⊤ };

    ghost flushes: { Self → FlushAnswer → Self → Type 0 } = { λ _ _ _. ⊤ };

    /// Writes a piece, or a beginning of it, and gives how many bytes were accepted.
    fn write_piece(&mut self, piece: &[u8]) -> Result<usize>
        ensures bound { WritesAtMost result piece.now }
        ensures bytes { WriteAppends (holds self.old) (holds self.new) result piece.now }
        ensures writes { writes self.old piece.now result self.new };

    /// Flushes what was written.
    fn flush_pieces(&mut self) -> Result<()>
        ensures bytes { Keeps (holds self.old) (holds self.new) }
        ensures flushes { flushes self.old result self.new };
}

impl<W: Write> Output for W {
    ghost holds = { W.contents };

    ghost writes = { λ old piece answer new. WritesAtMost answer piece × WriteAppends (W.contents old) (W.contents new) answer piece };

    ghost flushes = { λ old answer new. Keeps (W.contents old) (W.contents new) };

    fn write_piece(&mut self, piece: &[u8]) -> Result<usize> {
        self.write(piece)
    }

    fn flush_pieces(&mut self) -> Result<()> {
        self.flush()
    }
}

/// Makes any `Write` a `Counted` writer: `put` is its `write`, `finish` is its `flush`, and failures are counted.
///
/// It has no buffer: it makes one `write` call for each text of an operation, and most operations of a repaint are
/// single characters. So a program wraps a writer to a terminal or a file in a `BufWriter`:
/// `Device::new(BufWriter::new(alloc, writer)?)`. `finish` calls the flush of that `BufWriter`, so an update that ends
/// well has written everything through. A byte counts as taken once the `BufWriter` has it, and what a failed flush
/// leaves stays in its buffer.
#[derive(Drop)]
pub struct Device<W> {
    /// The writer.
    pub writer: W,
    /// How many writes of a piece that is not empty failed or accepted nothing.
    pub failed_puts: u64,
    /// How many flushes were made.
    pub finishes: u64,
    /// How many of them failed.
    pub failed_finishes: u64,
    /// Whether a write was made after the last flush.
    pub is_open: bool,
}

impl<W: Output> Device<W> {
    /// Makes a device of a writer, with nothing counted yet.
    pub fn new(writer: W) -> Device<W>
        ensures { result ≡ record { writer = writer; failed_puts = 0; finishes = 0; failed_finishes = 0; is_open = false } }
    {
        Device {
            writer,
            failed_puts: 0,
            finishes: 0,
            failed_finishes: 0,
            is_open: false,
        }
    }
}

impl<W: Output> Counted for Device<W> {
    ghost told = { λ d. record { taken = W.holds d.writer; failed_puts = d.failed_puts; finishes = finishes_of d.finishes d.failed_finishes; is_open = d.is_open } };

    fn put(&mut self, piece: &[u8]) -> Result<usize>
        ensures bound { WritesAtMost result piece.now }
        ensures bytes { WriteAppends (W.holds self.old.writer) (W.holds self.new.writer) result piece.now }
        ensures puts { self.new.failed_puts ≡ counted (is_failed_put piece.now result) self.old.failed_puts }
        ensures finishes { finishes_of self.new.finishes self.new.failed_finishes ≡ finishes_of self.old.finishes self.old.failed_finishes }
        ensures last { self.new.is_open ≡ true }
        ensures passed { W.writes self.old.writer piece.now result self.new.writer }
    {
        let answer = self.writer.write_piece(piece);
        let failed = !piece.is_empty() && took_none(&answer);
        self.failed_puts = self.failed_puts.saturating_add(u64::from(failed));
        self.is_open = true;
        answer
    }

    fn finish(&mut self) -> Result<()>
        ensures bytes { Keeps (W.holds self.old.writer) (W.holds self.new.writer) }
        ensures puts { self.new.failed_puts ≡ self.old.failed_puts }
        ensures finishes { finishes_of self.new.finishes self.new.failed_finishes ≡ finished (is_failed_finish result) (finishes_of self.old.finishes self.old.failed_finishes) }
        ensures last { self.new.is_open ≡ false }
        ensures passed { W.flushes self.old.writer result self.new.writer }
    {
        let answer = self.writer.flush_pieces();
        self.is_open = false;
        self.finishes = self.finishes.saturating_add(1);
        self.failed_finishes = self
            .failed_finishes
            .saturating_add(u64::from(answer.is_err()));
        answer
    }
}

// Whether nothing was accepted.
fn took_none(answer: &Result<usize>) -> bool
    ensures { result ≡ took_none answer.now }
{
    match answer {
        Ok(taken) => *taken == 0,
        Err(_) => true,
    }
}

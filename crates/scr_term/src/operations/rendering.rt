//! The bytes of each operation, and their number. Nothing is sent here: bytes are appended to a
//! vector.
ghost use Rattle.std.specs.Prelude.{◌≡◌, ◌+◌, ◌<◌, ◌≤◌, ◌∷◌, [], ◌++◌, ◌&&◌, IsTrue, OnOk, OnErr, Some, None, encode_utf8, if◌then◌else◌, length, vec_len, vec_capacity};
ghost use Rattle.scr_term.specs.Operations.Profiles.{has_colours, is_there, program_of};
ghost use Rattle.scr_term.specs.Code.SentPieces.{piece_of};
ghost use Rattle.scr_term.specs.declared.operations.operation.Op.TheVariants.{Move, Put, Write};
ghost use Rattle.scr_term.specs.Operations.Texts.{bytes_of, first_piece, has, is_sendable, nine, piece_bytes, renditions_of, resets_colours, written};

use crate::operations::capability::Capability;
use crate::operations::pieces::{SentPiece, renditions_of, resets_colours, text};
use crate::{Op, Profile};
use scr_cells::{Attrs, NoMemory};
use ti_param::{RunFault, Vars, stack_is_enough, text_is_bounded};

impl Profile {
    /// The number of bytes of an operation's text; `None` if the terminal does not have the
    /// operation.
    #[inline(always)]
    pub fn cost(&self, op: Op) -> Option<usize>
        ensures { result ≡ if has self.now op then Some (length (bytes_of self.now op)) else None }
    {
        match op {
            Op::Move(row, column) => self.address_cost(row, column),
            other => self.any_cost(other),
        }
    }

    // The number of bytes of a cursor address. It is a function of its own since plans ask for it
    // most often.
    #[inline(always)]
    #[tactic(auto, using(crate::proofs::RenderingLaws::bytes_of_one), unfolding(crate::specs::Operations::Texts::has))]
    fn address_cost(&self, row: u32, column: u32) -> Option<usize>
        ensures { result ≡ if has self.now (Move row column) then Some (length (bytes_of self.now (Move row column))) else None }
    {
        let size = self.size();
        if row < size.rows && column < size.columns && self.is_there(Capability::Cup) {
            return Some(self.numbers_cost(Capability::Cup, row as i32, column as i32));
        }
        None
    }

    // The number of bytes of any operation; `None` if the terminal does not have it.
    #[inline(never)]
    #[tactic(auto, using(crate::proofs::RenderingLaws::bytes_of_one), unfolding(crate::specs::Operations::Texts::has))]
    fn any_cost(&self, op: Op) -> Option<usize>
        ensures { result ≡ if has self.now op then Some (length (bytes_of self.now op)) else None }
    {
        if !self.is_within(op) {
            return None;
        }
        let piece = self.first_piece(op);
        if !self.is_sendable(piece) {
            return None;
        }
        let first = self.piece_cost(piece);
        if self.makes_colours_default(op) {
            Some(first + self.piece_cost(text(Capability::Op)))
        } else {
            Some(first)
        }
    }

    /// Appends the bytes of an operation that the terminal has: the text of its capability with its
    /// parameters, without padding, followed by that of `op` if the operation makes the colours
    /// default (terminfo(5)).
    ///
    /// Fails only when memory runs out, and then appends nothing; never fails if `out` has room for
    /// the bytes. The capacity of `out` never shrinks.
    pub fn render(&self, op: Op, out: &mut Vec<u8>) -> Result<(), NoMemory>
        requires { IsTrue (has self.now op) }
        ensures ok { OnOk result (out.new.items ≡ out.old.items ++ bytes_of self.now op) }
        ensures err { OnErr result (out.new.items ≡ out.old.items) }
        ensures room { OnErr result (vec_capacity out.old < vec_len out.old + length (bytes_of self.now op)) }
        ensures kept { vec_capacity out.old ≤ vec_capacity out.new }
    {
        match op {
            Op::Put(byte) => self.render_character(byte, out),
            Op::Move(row, column) => self.render_address(row, column, out),
            _ => self.render_other(&op, out),
        }
    }

    // Appends the bytes of any other operation. It is a function of its own: with characters in UTF-8 as a fourth arm
    // above, painting from scratch took 50 instructions more a place.
    #[inline(never)]
    fn render_other(&self, op: &Op, out: &mut Vec<u8>) -> Result<(), NoMemory>
        requires { IsTrue (has self.now op.now) }
        ensures ok { OnOk result (out.new.items ≡ out.old.items ++ bytes_of self.now op.now) }
        ensures err { OnErr result (out.new.items ≡ out.old.items) }
        ensures room { OnErr result (vec_capacity out.old < vec_len out.old + length (bytes_of self.now op.now)) }
        ensures kept { vec_capacity out.old ≤ vec_capacity out.new }
    {
        match *op {
            Op::Write(character) => self.render_encoded(character, out),
            _ => self.render_any(op, out),
        }
    }

    // Appends a character. It is a function of its own since a third of what paints a screen is
    // characters.
    #[tactic(auto, unfolding(crate::specs::Operations::Texts::bytes_of))]
    fn render_character(&self, byte: u8, out: &mut Vec<u8>) -> Result<(), NoMemory>
        ensures ok { OnOk result (out.new.items ≡ out.old.items ++ bytes_of self.now (Put byte)) }
        ensures err { OnErr result (out.new.items ≡ out.old.items) }
        ensures room { OnErr result (vec_capacity out.old < vec_len out.old + length (bytes_of self.now (Put byte))) }
        ensures kept { vec_capacity out.old ≤ vec_capacity out.new }
    {
        out.push(byte)?;
        Ok(())
    }

    // Appends a character in UTF-8.
    #[tactic(auto, using(crate::proofs::RenderingLaws::bytes_of_written))]
    fn render_encoded(&self, character: char, out: &mut Vec<u8>) -> Result<(), NoMemory>
        requires { IsTrue (has self.now (Write character)) }
        ensures ok { OnOk result (out.new.items ≡ out.old.items ++ bytes_of self.now (Write character)) }
        ensures err { OnErr result (out.new.items ≡ out.old.items) }
        ensures room { OnErr result (vec_capacity out.old < vec_len out.old + length (bytes_of self.now (Write character))) }
        ensures kept { vec_capacity out.old ≤ vec_capacity out.new }
    {
        append_encoded(character, out)
    }

    // Appends a cursor address. It is a function of its own since another third is these.
    #[inline(never)]
    #[tactic(auto, using(crate::proofs::RenderingLaws::bytes_of_one), unfolding(crate::specs::Operations::Texts::has))]
    fn render_address(&self, row: u32, column: u32, out: &mut Vec<u8>) -> Result<(), NoMemory>
        requires { IsTrue (has self.now (Move row column)) }
        ensures ok { OnOk result (out.new.items ≡ out.old.items ++ bytes_of self.now (Move row column)) }
        ensures err { OnErr result (out.new.items ≡ out.old.items) }
        ensures room { OnErr result (vec_capacity out.old < vec_len out.old + length (bytes_of self.now (Move row column))) }
        ensures kept { vec_capacity out.old ≤ vec_capacity out.new }
    {
        let _size = self.size();
        self.render_numbers(Capability::Cup, row as i32, column as i32, out)
    }

    // Appends the bytes of any operation that the terminal has.
    #[inline(never)]
    #[tactic(auto, using(crate::proofs::RenderingLaws::bytes_of_one))]
    fn render_any(&self, op: &Op, out: &mut Vec<u8>) -> Result<(), NoMemory>
        requires { IsTrue (has self.now op.now) }
        ensures ok { OnOk result (out.new.items ≡ out.old.items ++ bytes_of self.now op.now) }
        ensures err { OnErr result (out.new.items ≡ out.old.items) }
        ensures room { OnErr result (vec_capacity out.old < vec_len out.old + length (bytes_of self.now op.now)) }
        ensures kept { vec_capacity out.old ≤ vec_capacity out.new }
    {
        let before = out.len();
        self.render_piece(self.first_sent(*op), out)?;
        if self.makes_colours_default(*op) {
            if let Err(refused) = self.render_piece(text(Capability::Op), out) {
                out.truncate(before);
                return Err(refused);
            }
        }
        Ok(())
    }

    // The only or first piece of an operation that the terminal has.
    #[inline(always)]
    #[tactic(auto, unfolding(crate::specs::Operations::Texts::has))]
    fn first_sent(&self, op: Op) -> SentPiece
        requires { IsTrue (has self.now op) }
        ensures value { piece_of result ≡ first_piece self.now op }
        ensures sendable { IsTrue (is_sendable self.now (piece_of result)) }
    {
        self.first_piece(op)
    }

    // Whether `op` follows an operation's text.
    #[tactic(auto, unfolding(crate::specs::Operations::Profiles::has_colours))]
    fn makes_colours_default(&self, op: Op) -> bool
        ensures value { result ≡ (resets_colours op && has_colours self.now) }
        ensures sendable { IsTrue result → IsTrue (is_there self.now Capability.Op) }
    {
        resets_colours(op) && self.colours
    }

    // The number of bytes of a piece.
    #[inline(always)]
    fn piece_cost(&self, piece: SentPiece) -> usize
        requires { IsTrue (is_sendable self.now (piece_of piece)) }
        ensures value { result ≡ length (piece_bytes self.now (piece_of piece)) }
        ensures few { result ≤ 1024 }
    {
        match piece {
            SentPiece::Byte(_) => 1,
            SentPiece::Encoded(character) => character.len_utf8(),
            SentPiece::Numbers(capability, first, second) => {
                self.numbers_cost(capability, first, second)
            }
            SentPiece::Renditions(set) => self.renditions_cost(set),
        }
    }

    // The number of bytes of a capability's text with two numbers.
    #[inline(always)]
    fn numbers_cost(&self, capability: Capability, first: i32, second: i32) -> usize
        requires { IsTrue (is_there self.now capability) }
        ensures value { result ≡ length (written (program_of self.now capability) (nine (first ∷ second ∷ []))) }
        ensures few { result ≤ 1024 }
    {
        stack_is_enough();
        text_is_bounded();
        let Some(program) = &self.programs[capability.ordinal()] else {
            return 0;
        };
        program.length_of_two(first, second).unwrap_or(0)
    }

    // The number of bytes of the text of `sgr` for a set of attributes.
    #[inline(never)]
    fn renditions_cost(&self, set: Attrs) -> usize
        requires { IsTrue (is_there self.now Capability.Sgr) }
        ensures value { result ≡ length (written (program_of self.now Capability.Sgr) (renditions_of set.0)) }
        ensures few { result ≤ 1024 }
    {
        stack_is_enough();
        text_is_bounded();
        let Some(program) = &self.programs[Capability::Sgr.ordinal()] else {
            return 0;
        };
        program
            .length(renditions_of(set), &Vars::new())
            .unwrap_or(0)
    }

    // Appends the bytes of a piece.
    #[inline(always)]
    fn render_piece(&self, piece: SentPiece, out: &mut Vec<u8>) -> Result<(), NoMemory>
        requires { IsTrue (is_sendable self.now (piece_of piece)) }
        ensures ok { OnOk result (out.new.items ≡ out.old.items ++ piece_bytes self.now (piece_of piece)) }
        ensures err { OnErr result (out.new.items ≡ out.old.items) }
        ensures room { OnErr result (vec_capacity out.old < vec_len out.old + length (piece_bytes self.now (piece_of piece))) }
        ensures kept { vec_capacity out.old ≤ vec_capacity out.new }
    {
        match piece {
            SentPiece::Byte(byte) => {
                out.push(byte)?;
                Ok(())
            }
            SentPiece::Encoded(character) => append_encoded(character, out),
            SentPiece::Numbers(capability, first, second) => {
                self.render_numbers(capability, first, second, out)
            }
            SentPiece::Renditions(set) => self.render_renditions(set, out),
        }
    }

    // Appends the text of a capability with two numbers.
    #[inline(always)]
    fn render_numbers(
        &self,
        capability: Capability,
        first: i32,
        second: i32,
        out: &mut Vec<u8>,
    ) -> Result<(), NoMemory>
        requires { IsTrue (is_there self.now capability) }
        ensures ok { OnOk result (out.new.items ≡ out.old.items ++ written (program_of self.now capability) (nine (first ∷ second ∷ []))) }
        ensures err { OnErr result (out.new.items ≡ out.old.items) }
        ensures room { OnErr result (vec_capacity out.old < vec_len out.old + length (written (program_of self.now capability) (nine (first ∷ second ∷ [])))) }
        ensures kept { vec_capacity out.old ≤ vec_capacity out.new }
    {
        stack_is_enough();
        let Some(program) = &self.programs[capability.ordinal()] else {
            return Ok(());
        };
        program
            .run_of_two(first, second, out)
            .map_err(|_: RunFault| NoMemory)
    }

    // Appends the text of `sgr` for a set of attributes.
    #[inline(always)]
    fn render_renditions(&self, set: Attrs, out: &mut Vec<u8>) -> Result<(), NoMemory>
        requires { IsTrue (is_there self.now Capability.Sgr) }
        ensures ok { OnOk result (out.new.items ≡ out.old.items ++ written (program_of self.now Capability.Sgr) (renditions_of set.0)) }
        ensures err { OnErr result (out.new.items ≡ out.old.items) }
        ensures room { OnErr result (vec_capacity out.old < vec_len out.old + length (written (program_of self.now Capability.Sgr) (renditions_of set.0))) }
        ensures kept { vec_capacity out.old ≤ vec_capacity out.new }
    {
        stack_is_enough();
        let Some(program) = &self.programs[Capability::Sgr.ordinal()] else {
            return Ok(());
        };
        program
            .run(renditions_of(set), &mut Vars::new(), out)
            .map_err(|_: RunFault| NoMemory)
    }
}

// Appends the UTF-8 encoding of a character (RFC 3629). It is called, so that the other operations need no room for its
// bytes.
#[inline(never)]
fn append_encoded(character: char, out: &mut Vec<u8>) -> Result<(), NoMemory>
    ensures ok { OnOk result (out.new.items ≡ out.old.items ++ encode_utf8 character) }
    ensures err { OnErr result (out.new.items ≡ out.old.items) }
    ensures room { OnErr result (vec_capacity out.old < vec_len out.old + length (encode_utf8 character)) }
    ensures kept { vec_capacity out.old ≤ vec_capacity out.new }
{
    let mut buffer = [0; 4];
    let text = character.encode_utf8(&mut buffer);
    out.extend_from_slice(text.as_bytes())?;
    Ok(())
}

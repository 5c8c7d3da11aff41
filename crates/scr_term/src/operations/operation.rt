//! The operations of a terminal, and the spots of its cursor. `specs/Operations/Steps.antt` says
//! what they do; `rendering` gives their bytes.
ghost use Rattle.std.specs.Prelude.{◌≡◌};
ghost use Rattle.scr_term.specs.Operations.Texts.{put_of};

use scr_cells::Attrs;
use std::fmt;
use std::marker::Model;

/// One operation of a terminal: a character, or the text of a capability, which `op` may follow
/// (terminfo(5)).
///
/// Rows and columns count from 0 at the top left.
#[derive(Clone, Copy, Debug, PartialEq, Eq)]
pub enum Op {
    /// `home`: moves the cursor to row 0, column 0.
    Home,
    /// `cup`: moves the cursor to a row and a column.
    Move(u32, u32),
    /// `hpa`: moves the cursor to a column of the same row.
    Column(u32),
    /// `vpa`: moves the cursor to a row, in the same column.
    Line(u32),
    /// `cuu1` or `cuu`: moves the cursor up by 1 to 500 rows.
    Up(u32),
    /// `cud1` or `cud`: moves the cursor down by 1 to 500 rows.
    Down(u32),
    /// `cub1` or `cub`: moves the cursor left by 1 to 500 columns.
    Left(u32),
    /// `cuf1` or `cuf`: moves the cursor right by 1 to 500 columns.
    Right(u32),
    /// `cuu`, also for one row: moves the cursor up by 1 to 500 rows.
    UpBy(u32),
    /// `cud`, also for one row: moves the cursor down by 1 to 500 rows.
    DownBy(u32),
    /// `cub`, also for one column: moves the cursor left by 1 to 500 columns.
    LeftBy(u32),
    /// `cuf`, also for one column: moves the cursor right by 1 to 500 columns.
    RightBy(u32),
    /// `cr`: moves the cursor to the first column of the same row.
    Return,
    /// `clear`: makes the screen blank and moves the cursor to row 0, column 0.
    Clear,
    /// `el`: makes the row blank from the cursor on.
    EraseLine,
    /// `ed`, sent in the first column: makes the cursor's row and those below it blank.
    EraseBelow,
    /// `ech`: makes 1 to 500 places of the row blank, from the cursor on.
    EraseChars(u32),
    /// `il1` or `il`, sent in the first column: inserts 1 to 500 blank lines before the cursor's
    /// row. As many rows at the bottom of the screen are lost.
    InsertLines(u32),
    /// `dl1` or `dl`, sent in the first column: deletes 1 to 500 lines, from the cursor's row on.
    /// As many rows at the bottom of the screen become blank.
    DeleteLines(u32),
    /// `ich`: inserts 1 to 500 blanks at the cursor. As many places at the end of the row are lost.
    InsertChars(u32),
    /// `dch1` or `dch`: deletes 1 to 500 characters of the row, from the cursor on. As many places
    /// at the end of the row become blank.
    DeleteChars(u32),
    /// `ind` or `indn`, sent in the first column of the last row: moves all rows up by 1 to 500. As
    /// many rows at the top are lost, and as many at the bottom become blank.
    ScrollUp(u32),
    /// `ri` or `rin`, sent in the first column of the first row: moves all rows down by 1 to 500. As
    /// many rows at the bottom are lost, and as many at the top become blank.
    ScrollDown(u32),
    /// `sgr0`, then `op` if colours are shown: turns all attributes off and makes the colours
    /// default.
    Reset,
    /// `sgr0` alone, sent in default colours: turns all attributes off.
    ExitAttributes,
    /// `smso`, `smul`, `rev`, `blink`, `dim`, `bold` or `invis`: turns on one attribute more, the
    /// only one of the set.
    Enter(Attrs),
    /// `sgr`, then `op` if colours are shown: turns on exactly these attributes and makes the
    /// colours default.
    Set(Attrs),
    /// `setaf`: sets the foreground, 0 to 7.
    Fore(u8),
    /// `setab`: sets the background, 0 to 7.
    Back(u8),
    /// Writes a character of ASCII, 32 to 126, with the attributes that are on and the current
    /// colours.
    Put(u8),
    /// Writes a character above ASCII in UTF-8 (RFC 3629), as `Put` does one of ASCII.
    Write(char),
    /// `rep`: writes a character, 32 to 126, 2 to 500 times as `Put` does, short of the last column.
    Repeat(u8, u32),
}

impl Op {
    /// The operation that writes a character: `Put` for one of ASCII, `Write` for any other.
    #[inline(always)]
    #[tactic(auto, unfolding(crate::specs::Operations::Texts::put_of))]
    pub fn of(character: char) -> Op
        ensures { result ≡ put_of character }
    {
        let code = u32::from(character);
        if code < 128 {
            Op::Put(code as u8)
        } else {
            Op::Write(character)
        }
    }
}

/// Writes an operation as its name with its numbers, attributes or character: `Home`, `Move(4, 9)`,
/// `Set(underline bold)`, `Put(q)`, `Repeat(-, 9)`.
impl fmt::Display for Op {
    fn fmt<W: fmt::Write>(&self, f: &mut fmt::Formatter<W>) -> fmt::Result {
        match self {
            Op::Enter(attrs) => write!(f, "Enter({attrs})"),
            Op::Set(attrs) => write!(f, "Set({attrs})"),
            Op::Put(byte) => write!(f, "Put({})", char::from(*byte)),
            Op::Write(character) => write!(f, "Write({character})"),
            Op::Repeat(byte, count) => write!(f, "Repeat({}, {count})", char::from(*byte)),
            _ => write!(f, "{self:?}"),
        }
    }
}

/// Where the cursor of a terminal is.
#[derive(Clone, Copy, Debug, PartialEq, Eq)]
pub enum Spot {
    /// In a place: its row and column.
    At(u32, u32),
    /// Behind the last column of this row, after a character was written there (`xenl` of
    /// terminfo(5)).
    Margin(u32),
}

/// Operations, one after another.
#[derive(Debug, Drop)]
pub struct Ops(pub Vec<Op>);

impl Model for Ops {
    ghost use Rattle.std.specs.Prelude.{List};
    ghost use Rattle.scr_term.specs.declared.operations.operation.Op.{Op};

    ghost Value = { List Op };

    ghost view = { λ ops. ops.0.items };
}

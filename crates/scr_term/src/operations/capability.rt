//! The capabilities whose texts operations send.
ghost use Rattle.std.specs.Prelude.{◌≡◌};
ghost use Rattle.scr_term.specs.Operations.Capabilities.{ordinal, slot_of};

use ti_caps::{Slot, slots};

/// A capability that an operation sends (terminfo(5), "Predefined Capabilities"). Those in `SPARE`
/// come last.
#[derive(Clone, Copy, Debug, PartialEq, Eq)]
pub enum Capability {
    /// `cr`.
    Cr,
    /// `clear`.
    Clear,
    /// `el`.
    El,
    /// `ed`.
    Ed,
    /// `hpa`.
    Hpa,
    /// `cup`.
    Cup,
    /// `cud1`.
    Cud1,
    /// `home`.
    Home,
    /// `cub1`.
    Cub1,
    /// `cuf1`.
    Cuf1,
    /// `cuu1`.
    Cuu1,
    /// `blink`.
    Blink,
    /// `bold`.
    Bold,
    /// `dim`.
    Dim,
    /// `invis`.
    Invis,
    /// `rev`.
    Rev,
    /// `smso`.
    Smso,
    /// `smul`.
    Smul,
    /// `ech`.
    Ech,
    /// `sgr0`.
    Sgr0,
    /// `cud`.
    Cud,
    /// `cub`.
    Cub,
    /// `cuf`.
    Cuf,
    /// `cuu`.
    Cuu,
    /// `vpa`.
    Vpa,
    /// `sgr`.
    Sgr,
    /// `op`.
    Op,
    /// `setaf`.
    Setaf,
    /// `setab`.
    Setab,
    /// `il1`.
    Il1,
    /// `il`.
    Il,
    /// `dl1`.
    Dl1,
    /// `dl`.
    Dl,
    /// `ich`.
    Ich,
    /// `dch1`.
    Dch1,
    /// `dch`.
    Dch,
    /// `ind`.
    Ind,
    /// `ri`.
    Ri,
    /// `indn`.
    Indn,
    /// `rin`.
    Rin,
    /// `rep`.
    Rep,
}

impl Capability {
    /// All of them but those in `SPARE`, in the order of their positions.
    pub const EACH: [Capability; 29] = [
        Capability::Cr,
        Capability::Clear,
        Capability::El,
        Capability::Ed,
        Capability::Hpa,
        Capability::Cup,
        Capability::Cud1,
        Capability::Home,
        Capability::Cub1,
        Capability::Cuf1,
        Capability::Cuu1,
        Capability::Blink,
        Capability::Bold,
        Capability::Dim,
        Capability::Invis,
        Capability::Rev,
        Capability::Smso,
        Capability::Smul,
        Capability::Ech,
        Capability::Sgr0,
        Capability::Cud,
        Capability::Cub,
        Capability::Cuf,
        Capability::Cuu,
        Capability::Vpa,
        Capability::Sgr,
        Capability::Op,
        Capability::Setaf,
        Capability::Setab,
    ];

    /// Those that insert and delete lines and characters, that scroll, and that repeat a character. A
    /// terminal can do without each of them, so an entry is admitted whatever their texts are.
    pub const SPARE: [Capability; 12] = [
        Capability::Il1,
        Capability::Il,
        Capability::Dl1,
        Capability::Dl,
        Capability::Ich,
        Capability::Dch1,
        Capability::Dch,
        Capability::Ind,
        Capability::Ri,
        Capability::Indn,
        Capability::Rin,
        Capability::Rep,
    ];

    /// Its index in `EACH`, or after these in `SPARE`.
    pub(crate) fn ordinal(self) -> usize
        ensures { result ≡ ordinal self }
    {
        self as usize
    }

    /// Its position among the string capabilities of an entry.
    pub fn slot(self) -> Slot
        ensures { result ≡ slot_of self }
    {
        match self {
            Capability::Cr => slots::CR,
            Capability::Clear => slots::CLEAR,
            Capability::El => slots::EL,
            Capability::Ed => slots::ED,
            Capability::Hpa => slots::HPA,
            Capability::Cup => slots::CUP,
            Capability::Cud1 => slots::CUD1,
            Capability::Home => slots::HOME,
            Capability::Cub1 => slots::CUB1,
            Capability::Cuf1 => slots::CUF1,
            Capability::Cuu1 => slots::CUU1,
            Capability::Blink => slots::BLINK,
            Capability::Bold => slots::BOLD,
            Capability::Dim => slots::DIM,
            Capability::Invis => slots::INVIS,
            Capability::Rev => slots::REV,
            Capability::Smso => slots::SMSO,
            Capability::Smul => slots::SMUL,
            Capability::Ech => slots::ECH,
            Capability::Sgr0 => slots::SGR0,
            Capability::Cud => slots::CUD,
            Capability::Cub => slots::CUB,
            Capability::Cuf => slots::CUF,
            Capability::Cuu => slots::CUU,
            Capability::Vpa => slots::VPA,
            Capability::Sgr => slots::SGR,
            Capability::Op => slots::OP,
            Capability::Setaf => slots::SETAF,
            Capability::Setab => slots::SETAB,
            Capability::Il1 => slots::IL1,
            Capability::Il => slots::IL,
            Capability::Dl1 => slots::DL1,
            Capability::Dl => slots::DL,
            Capability::Ich => slots::ICH,
            Capability::Dch1 => slots::DCH1,
            Capability::Dch => slots::DCH,
            Capability::Ind => slots::IND,
            Capability::Ri => slots::RI,
            Capability::Indn => slots::INDN,
            Capability::Rin => slots::RIN,
            Capability::Rep => slots::REP,
        }
    }
}

//! The positions of capabilities that the code refers to (terminfo(5), "Predefined Capabilities").
//! These are the ones that a terminal must have or must not have, those that operations send, and
//! the keys of the bundled entry.

ghost use Rattle.ti_caps.specs.Slots.{SlotsAreNamed};

use crate::table::Slot;

// Flags.
/// `am`.
pub const AM: Slot = Slot(1);
/// `xhp`.
pub const XHP: Slot = Slot(3);
/// `xenl`.
pub const XENL: Slot = Slot(4);
/// `gn`.
pub const GN: Slot = Slot(6);
/// `hc`.
pub const HC: Slot = Slot(7);
/// `in`.
pub const IN: Slot = Slot(10);
/// `da`.
pub const DA: Slot = Slot(11);
/// `db`.
pub const DB: Slot = Slot(12);
/// `msgr`.
pub const MSGR: Slot = Slot(14);
/// `os`.
pub const OS: Slot = Slot(15);
/// `xt`.
pub const XT: Slot = Slot(17);
/// `hz`.
pub const HZ: Slot = Slot(18);
/// `ul`.
pub const UL: Slot = Slot(19);
/// `sam`.
pub const SAM: Slot = Slot(34);

// Numbers.
/// `cols`.
pub const COLS: Slot = Slot(0);
/// `lines`.
pub const LINES: Slot = Slot(2);
/// `xmc`.
pub const XMC: Slot = Slot(4);
/// `colors`.
pub const COLORS: Slot = Slot(13);
/// `pairs`.
pub const PAIRS: Slot = Slot(14);
/// `ncv`.
pub const NCV: Slot = Slot(15);

// Texts.
/// `cr`.
pub const CR: Slot = Slot(2);
/// `clear`.
pub const CLEAR: Slot = Slot(5);
/// `el`.
pub const EL: Slot = Slot(6);
/// `ed`.
pub const ED: Slot = Slot(7);
/// `hpa`.
pub const HPA: Slot = Slot(8);
/// `cup`.
pub const CUP: Slot = Slot(10);
/// `cud1`.
pub const CUD1: Slot = Slot(11);
/// `home`.
pub const HOME: Slot = Slot(12);
/// `cub1`.
pub const CUB1: Slot = Slot(14);
/// `cuf1`.
pub const CUF1: Slot = Slot(17);
/// `cuu1`.
pub const CUU1: Slot = Slot(19);
/// `dch1`.
pub const DCH1: Slot = Slot(21);
/// `dl1`.
pub const DL1: Slot = Slot(22);
/// `blink`.
pub const BLINK: Slot = Slot(26);
/// `bold`.
pub const BOLD: Slot = Slot(27);
/// `smcup`.
pub const SMCUP: Slot = Slot(28);
/// `smdc`.
pub const SMDC: Slot = Slot(29);
/// `dim`.
pub const DIM: Slot = Slot(30);
/// `invis`.
pub const INVIS: Slot = Slot(32);
/// `rev`.
pub const REV: Slot = Slot(34);
/// `smso`.
pub const SMSO: Slot = Slot(35);
/// `smul`.
pub const SMUL: Slot = Slot(36);
/// `ech`.
pub const ECH: Slot = Slot(37);
/// `sgr0`.
pub const SGR0: Slot = Slot(39);
/// `rmcup`.
pub const RMCUP: Slot = Slot(40);
/// `ich1`.
pub const ICH1: Slot = Slot(52);
/// `il1`.
pub const IL1: Slot = Slot(53);
/// `kbs`.
pub const KBS: Slot = Slot(55);
/// `kcud1`.
pub const KCUD1: Slot = Slot(61);
/// `kcub1`.
pub const KCUB1: Slot = Slot(79);
/// `kcuf1`.
pub const KCUF1: Slot = Slot(83);
/// `kcuu1`.
pub const KCUU1: Slot = Slot(87);
/// `rmkx`.
pub const RMKX: Slot = Slot(88);
/// `smkx`.
pub const SMKX: Slot = Slot(89);
/// `dch`.
pub const DCH: Slot = Slot(105);
/// `dl`.
pub const DL: Slot = Slot(106);
/// `cud`.
pub const CUD: Slot = Slot(107);
/// `ich`.
pub const ICH: Slot = Slot(108);
/// `indn`.
pub const INDN: Slot = Slot(109);
/// `il`.
pub const IL: Slot = Slot(110);
/// `cub`.
pub const CUB: Slot = Slot(111);
/// `cuf`.
pub const CUF: Slot = Slot(112);
/// `rin`.
pub const RIN: Slot = Slot(113);
/// `cuu`.
pub const CUU: Slot = Slot(114);
/// `rep`.
pub const REP: Slot = Slot(121);
/// `vpa`.
pub const VPA: Slot = Slot(127);
/// `ind`.
pub const IND: Slot = Slot(129);
/// `ri`.
pub const RI: Slot = Slot(130);
/// `sgr`.
pub const SGR: Slot = Slot(131);
/// `op`.
pub const OP: Slot = Slot(297);
/// `setaf`.
pub const SETAF: Slot = Slot(359);
/// `setab`.
pub const SETAB: Slot = Slot(360);

/// Each of these positions is that of its name in the table, for its kind.
pub fn slots_are_named()
    ensures { SlotsAreNamed }
{}

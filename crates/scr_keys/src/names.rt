//! The keys that a terminfo entry may have, by name: a constant for each key of the capability table, and for each that
//! only `KeySet::All` has.
//!
//! The names of the keys are in terminfo(5), 'Predefined Capabilities', and X/Open Curses Issue 7, 'Key Codes'. The
//! constants may be patterns of a `match`.

ghost use Rattle.scr_keys.specs.Names.{KeysAreNamed};

use crate::keys::Key;

/// Backspace: `kbs`.
pub const BACKSPACE: Key = Key::Slot(55);
/// Clear all tab stops: `ktbc`.
pub const CLEAR_ALL_TABS: Key = Key::Slot(56);
/// Clear the screen, or erase: `kclr`.
pub const CLEAR: Key = Key::Slot(57);
/// Clear a tab stop: `kctab`.
pub const CLEAR_TAB: Key = Key::Slot(58);
/// Delete a character: `kdch1`.
pub const DELETE: Key = Key::Slot(59);
/// Delete a line: `kdl1`.
pub const DELETE_LINE: Key = Key::Slot(60);
/// Down arrow: `kcud1`.
pub const DOWN: Key = Key::Slot(61);
/// Leave insert mode: `krmir`.
pub const EXIT_INSERT: Key = Key::Slot(62);
/// Clear to the line's end: `kel`.
pub const CLEAR_TO_EOL: Key = Key::Slot(63);
/// Clear to the screen's end: `ked`.
pub const CLEAR_TO_BOTTOM: Key = Key::Slot(64);
/// Function key 0: `kf0`.
pub const F0: Key = Key::Slot(65);
/// Function key 1: `kf1`.
pub const F1: Key = Key::Slot(66);
/// Function key 10: `kf10`.
pub const F10: Key = Key::Slot(67);
/// Function key 2: `kf2`.
pub const F2: Key = Key::Slot(68);
/// Function key 3: `kf3`.
pub const F3: Key = Key::Slot(69);
/// Function key 4: `kf4`.
pub const F4: Key = Key::Slot(70);
/// Function key 5: `kf5`.
pub const F5: Key = Key::Slot(71);
/// Function key 6: `kf6`.
pub const F6: Key = Key::Slot(72);
/// Function key 7: `kf7`.
pub const F7: Key = Key::Slot(73);
/// Function key 8: `kf8`.
pub const F8: Key = Key::Slot(74);
/// Function key 9: `kf9`.
pub const F9: Key = Key::Slot(75);
/// Home: `khome`.
pub const HOME: Key = Key::Slot(76);
/// Insert a character, or enter insert mode: `kich1`.
pub const INSERT: Key = Key::Slot(77);
/// Insert a line: `kil1`.
pub const INSERT_LINE: Key = Key::Slot(78);
/// Left arrow: `kcub1`.
pub const LEFT: Key = Key::Slot(79);
/// Home down, the lower left corner: `kll`.
pub const HOME_DOWN: Key = Key::Slot(80);
/// Next page: `knp`.
pub const PAGE_DOWN: Key = Key::Slot(81);
/// Previous page: `kpp`.
pub const PAGE_UP: Key = Key::Slot(82);
/// Right arrow: `kcuf1`.
pub const RIGHT: Key = Key::Slot(83);
/// Scroll forward a line: `kind`.
pub const SCROLL_FORWARD: Key = Key::Slot(84);
/// Scroll backward a line: `kri`.
pub const SCROLL_BACKWARD: Key = Key::Slot(85);
/// Set a tab stop: `khts`.
pub const SET_TAB: Key = Key::Slot(86);
/// Up arrow: `kcuu1`.
pub const UP: Key = Key::Slot(87);
/// Upper left of the keypad: `ka1`.
pub const UPPER_LEFT: Key = Key::Slot(139);
/// Upper right of the keypad: `ka3`.
pub const UPPER_RIGHT: Key = Key::Slot(140);
/// Center of the keypad: `kb2`.
pub const CENTER: Key = Key::Slot(141);
/// Lower left of the keypad: `kc1`.
pub const LOWER_LEFT: Key = Key::Slot(142);
/// Lower right of the keypad: `kc3`.
pub const LOWER_RIGHT: Key = Key::Slot(143);
/// Back tab: `kcbt`.
pub const BACK_TAB: Key = Key::Slot(148);
/// Beginning: `kbeg`.
pub const BEGIN: Key = Key::Slot(158);
/// Cancel: `kcan`.
pub const CANCEL: Key = Key::Slot(159);
/// Close: `kclo`.
pub const CLOSE: Key = Key::Slot(160);
/// Command: `kcmd`.
pub const COMMAND: Key = Key::Slot(161);
/// Copy: `kcpy`.
pub const COPY: Key = Key::Slot(162);
/// Create: `kcrt`.
pub const CREATE: Key = Key::Slot(163);
/// End: `kend`.
pub const END: Key = Key::Slot(164);
/// Enter, or send: `kent`.
pub const ENTER: Key = Key::Slot(165);
/// Exit: `kext`.
pub const EXIT: Key = Key::Slot(166);
/// Find: `kfnd`.
pub const FIND: Key = Key::Slot(167);
/// Help: `khlp`.
pub const HELP: Key = Key::Slot(168);
/// Mark: `kmrk`.
pub const MARK: Key = Key::Slot(169);
/// Message: `kmsg`.
pub const MESSAGE: Key = Key::Slot(170);
/// Move: `kmov`.
pub const MOVE: Key = Key::Slot(171);
/// Next object: `knxt`.
pub const NEXT: Key = Key::Slot(172);
/// Open: `kopn`.
pub const OPEN: Key = Key::Slot(173);
/// Options: `kopt`.
pub const OPTIONS: Key = Key::Slot(174);
/// Previous object: `kprv`.
pub const PREVIOUS: Key = Key::Slot(175);
/// Print, or copy: `kprt`.
pub const PRINT: Key = Key::Slot(176);
/// Redo: `krdo`.
pub const REDO: Key = Key::Slot(177);
/// Reference: `kref`.
pub const REFERENCE: Key = Key::Slot(178);
/// Refresh: `krfr`.
pub const REFRESH: Key = Key::Slot(179);
/// Replace: `krpl`.
pub const REPLACE: Key = Key::Slot(180);
/// Restart: `krst`.
pub const RESTART: Key = Key::Slot(181);
/// Resume: `kres`.
pub const RESUME: Key = Key::Slot(182);
/// Save: `ksav`.
pub const SAVE: Key = Key::Slot(183);
/// Suspend: `kspd`.
pub const SUSPEND: Key = Key::Slot(184);
/// Undo: `kund`.
pub const UNDO: Key = Key::Slot(185);
/// Function key 11: `kf11`.
pub const F11: Key = Key::Slot(216);
/// Function key 12: `kf12`.
pub const F12: Key = Key::Slot(217);
/// Function key 13: `kf13`.
pub const F13: Key = Key::Slot(218);
/// Function key 14: `kf14`.
pub const F14: Key = Key::Slot(219);
/// Function key 15: `kf15`.
pub const F15: Key = Key::Slot(220);
/// Function key 16: `kf16`.
pub const F16: Key = Key::Slot(221);
/// Function key 17: `kf17`.
pub const F17: Key = Key::Slot(222);
/// Function key 18: `kf18`.
pub const F18: Key = Key::Slot(223);
/// Function key 19: `kf19`.
pub const F19: Key = Key::Slot(224);
/// Function key 20: `kf20`.
pub const F20: Key = Key::Slot(225);
/// Function key 21: `kf21`.
pub const F21: Key = Key::Slot(226);
/// Function key 22: `kf22`.
pub const F22: Key = Key::Slot(227);
/// Function key 23: `kf23`.
pub const F23: Key = Key::Slot(228);
/// Function key 24: `kf24`.
pub const F24: Key = Key::Slot(229);
/// Function key 25: `kf25`.
pub const F25: Key = Key::Slot(230);
/// Function key 26: `kf26`.
pub const F26: Key = Key::Slot(231);
/// Function key 27: `kf27`.
pub const F27: Key = Key::Slot(232);
/// Function key 28: `kf28`.
pub const F28: Key = Key::Slot(233);
/// Function key 29: `kf29`.
pub const F29: Key = Key::Slot(234);
/// Function key 30: `kf30`.
pub const F30: Key = Key::Slot(235);
/// Function key 31: `kf31`.
pub const F31: Key = Key::Slot(236);
/// Function key 32: `kf32`.
pub const F32: Key = Key::Slot(237);
/// Function key 33: `kf33`.
pub const F33: Key = Key::Slot(238);
/// Function key 34: `kf34`.
pub const F34: Key = Key::Slot(239);
/// Function key 35: `kf35`.
pub const F35: Key = Key::Slot(240);
/// Function key 36: `kf36`.
pub const F36: Key = Key::Slot(241);
/// Function key 37: `kf37`.
pub const F37: Key = Key::Slot(242);
/// Function key 38: `kf38`.
pub const F38: Key = Key::Slot(243);
/// Function key 39: `kf39`.
pub const F39: Key = Key::Slot(244);
/// Function key 40: `kf40`.
pub const F40: Key = Key::Slot(245);
/// Function key 41: `kf41`.
pub const F41: Key = Key::Slot(246);
/// Function key 42: `kf42`.
pub const F42: Key = Key::Slot(247);
/// Function key 43: `kf43`.
pub const F43: Key = Key::Slot(248);
/// Function key 44: `kf44`.
pub const F44: Key = Key::Slot(249);
/// Function key 45: `kf45`.
pub const F45: Key = Key::Slot(250);
/// Function key 46: `kf46`.
pub const F46: Key = Key::Slot(251);
/// Function key 47: `kf47`.
pub const F47: Key = Key::Slot(252);
/// Function key 48: `kf48`.
pub const F48: Key = Key::Slot(253);
/// Function key 49: `kf49`.
pub const F49: Key = Key::Slot(254);
/// Function key 50: `kf50`.
pub const F50: Key = Key::Slot(255);
/// Function key 51: `kf51`.
pub const F51: Key = Key::Slot(256);
/// Function key 52: `kf52`.
pub const F52: Key = Key::Slot(257);
/// Function key 53: `kf53`.
pub const F53: Key = Key::Slot(258);
/// Function key 54: `kf54`.
pub const F54: Key = Key::Slot(259);
/// Function key 55: `kf55`.
pub const F55: Key = Key::Slot(260);
/// Function key 56: `kf56`.
pub const F56: Key = Key::Slot(261);
/// Function key 57: `kf57`.
pub const F57: Key = Key::Slot(262);
/// Function key 58: `kf58`.
pub const F58: Key = Key::Slot(263);
/// Function key 59: `kf59`.
pub const F59: Key = Key::Slot(264);
/// Function key 60: `kf60`.
pub const F60: Key = Key::Slot(265);
/// Function key 61: `kf61`.
pub const F61: Key = Key::Slot(266);
/// Function key 62: `kf62`.
pub const F62: Key = Key::Slot(267);
/// Function key 63: `kf63`.
pub const F63: Key = Key::Slot(268);
/// Shifted beginning: `kBEG`, of `KeySet::All`.
pub const SHIFT_BEGIN: Key = Key::Slot(186);
/// Shifted cancel: `kCAN`, of `KeySet::All`.
pub const SHIFT_CANCEL: Key = Key::Slot(187);
/// Shifted command: `kCMD`, of `KeySet::All`.
pub const SHIFT_COMMAND: Key = Key::Slot(188);
/// Shifted copy: `kCPY`, of `KeySet::All`.
pub const SHIFT_COPY: Key = Key::Slot(189);
/// Shifted create: `kCRT`, of `KeySet::All`.
pub const SHIFT_CREATE: Key = Key::Slot(190);
/// Shifted delete-character: `kDC`, of `KeySet::All`.
pub const SHIFT_DELETE: Key = Key::Slot(191);
/// Shifted delete-line: `kDL`, of `KeySet::All`.
pub const SHIFT_DELETE_LINE: Key = Key::Slot(192);
/// Select: `kslt`, of `KeySet::All`.
pub const SELECT: Key = Key::Slot(193);
/// Shifted end: `kEND`, of `KeySet::All`.
pub const SHIFT_END: Key = Key::Slot(194);
/// Shifted clear to the line's end: `kEOL`, of `KeySet::All`.
pub const SHIFT_CLEAR_TO_EOL: Key = Key::Slot(195);
/// Shifted exit: `kEXT`, of `KeySet::All`.
pub const SHIFT_EXIT: Key = Key::Slot(196);
/// Shifted find: `kFND`, of `KeySet::All`.
pub const SHIFT_FIND: Key = Key::Slot(197);
/// Shifted help: `kHLP`, of `KeySet::All`.
pub const SHIFT_HELP: Key = Key::Slot(198);
/// Shifted home: `kHOM`, of `KeySet::All`.
pub const SHIFT_HOME: Key = Key::Slot(199);
/// Shifted insert-character: `kIC`, of `KeySet::All`.
pub const SHIFT_INSERT: Key = Key::Slot(200);
/// Shifted left arrow: `kLFT`, of `KeySet::All`.
pub const SHIFT_LEFT: Key = Key::Slot(201);
/// Shifted message: `kMSG`, of `KeySet::All`.
pub const SHIFT_MESSAGE: Key = Key::Slot(202);
/// Shifted move: `kMOV`, of `KeySet::All`.
pub const SHIFT_MOVE: Key = Key::Slot(203);
/// Shifted next object; on most keyboards next page: `kNXT`, of `KeySet::All`.
pub const SHIFT_NEXT: Key = Key::Slot(204);
/// Shifted options: `kOPT`, of `KeySet::All`.
pub const SHIFT_OPTIONS: Key = Key::Slot(205);
/// Shifted previous object; on most keyboards previous page: `kPRV`, of `KeySet::All`.
pub const SHIFT_PREVIOUS: Key = Key::Slot(206);
/// Shifted print: `kPRT`, of `KeySet::All`.
pub const SHIFT_PRINT: Key = Key::Slot(207);
/// Shifted redo: `kRDO`, of `KeySet::All`.
pub const SHIFT_REDO: Key = Key::Slot(208);
/// Shifted replace: `kRPL`, of `KeySet::All`.
pub const SHIFT_REPLACE: Key = Key::Slot(209);
/// Shifted right arrow: `kRIT`, of `KeySet::All`.
pub const SHIFT_RIGHT: Key = Key::Slot(210);
/// Shifted resume: `kRES`, of `KeySet::All`.
pub const SHIFT_RESUME: Key = Key::Slot(211);
/// Shifted save: `kSAV`, of `KeySet::All`.
pub const SHIFT_SAVE: Key = Key::Slot(212);
/// Shifted suspend: `kSPD`, of `KeySet::All`.
pub const SHIFT_SUSPEND: Key = Key::Slot(213);
/// Shifted undo: `kUND`, of `KeySet::All`.
pub const SHIFT_UNDO: Key = Key::Slot(214);
/// What begins a report of the mouse: `kmous`, of `KeySet::All`.
pub const MOUSE: Key = Key::Slot(355);

/// Each of these keys is at the position that its name has in the capability table or, of the keys that only
/// `KeySet::All` has, among all names of term.h.
pub fn keys_are_named()
    ensures { KeysAreNamed }
{}

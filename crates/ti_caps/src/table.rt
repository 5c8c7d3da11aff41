//! The capability table: the names of terminfo(5) by kind and position, in runs without gaps.

ghost use Rattle.std.specs.Prelude.{ℕ, List, Some, ◌≡◌, ◌+◌, ◌<◌, length, option_map, slice_get, MatchOption, ⊤};
ghost use Rattle.ti_caps.specs.Buckets.{if_same};
ghost use Rattle.ti_caps.specs.Table.{capability_of, name_at, name_in, position_in, runs};
ghost use Rattle.ti_caps.specs.NameRuns.{seen};
ghost use Rattle.ti_caps.specs.declared.table.Kind.{Kind};

/// The boolean capabilities.
static FLAGS: [&str; 37] = [
    "bw", "am", "xsb", "xhp", "xenl", "eo", "gn", "hc", "km", "hs", "in", "da", "db", "mir",
    "msgr", "os", "eslok", "xt", "hz", "ul", "xon", "nxon", "mc5i", "chts", "nrrmc", "npc",
    "ndscr", "ccc", "bce", "hls", "xhpa", "crxm", "daisy", "xvpa", "sam", "cpix", "lpix",
];

/// The numeric capabilities.
static NUMBERS: [&str; 33] = [
    "cols", "it", "lines", "lm", "xmc", "pb", "vt", "wsl", "nlab", "lh", "lw", "ma", "wnum",
    "colors", "pairs", "ncv", "bufsz", "spinv", "spinh", "maddr", "mjump", "mcs", "mls", "npins",
    "orc", "orl", "orhi", "orvi", "cps", "widcs", "btns", "bitwin", "bitype",
];

/// The string capabilities from position 0.
static TEXTS_FROM_0: [&str; 55] = [
    "cbt", "bel", "cr", "csr", "tbc", "clear", "el", "ed", "hpa", "cmdch", "cup", "cud1", "home",
    "civis", "cub1", "mrcup", "cnorm", "cuf1", "ll", "cuu1", "cvvis", "dch1", "dl1", "dsl", "hd",
    "smacs", "blink", "bold", "smcup", "smdc", "dim", "smir", "invis", "prot", "rev", "smso",
    "smul", "ech", "rmacs", "sgr0", "rmcup", "rmdc", "rmir", "rmso", "rmul", "flash", "ff", "fsl",
    "is1", "is2", "is3", "if", "ich1", "il1", "ip",
];

/// The string capabilities from position 55.
static TEXTS_FROM_55: [&str; 35] = [
    "kbs", "ktbc", "kclr", "kctab", "kdch1", "kdl1", "kcud1", "krmir", "kel", "ked", "kf0", "kf1",
    "kf10", "kf2", "kf3", "kf4", "kf5", "kf6", "kf7", "kf8", "kf9", "khome", "kich1", "kil1",
    "kcub1", "kll", "knp", "kpp", "kcuf1", "kind", "kri", "khts", "kcuu1", "rmkx", "smkx",
];

/// The string capabilities from position 90.
static TEXTS_FROM_90: [&str; 49] = [
    "lf0", "lf1", "lf10", "lf2", "lf3", "lf4", "lf5", "lf6", "lf7", "lf8", "lf9", "rmm", "smm",
    "nel", "pad", "dch", "dl", "cud", "ich", "indn", "il", "cub", "cuf", "rin", "cuu", "pfkey",
    "pfloc", "pfx", "mc0", "mc4", "mc5", "rep", "rs1", "rs2", "rs3", "rf", "rc", "vpa", "sc",
    "ind", "ri", "sgr", "hts", "wind", "ht", "tsl", "uc", "hu", "iprog",
];

/// The string capabilities from position 139.
static TEXTS_FROM_139: [&str; 19] = [
    "ka1", "ka3", "kb2", "kc1", "kc3", "mc5p", "rmp", "acsc", "pln", "kcbt", "smxon", "rmxon",
    "smam", "rmam", "xonc", "xoffc", "enacs", "smln", "rmln",
];

/// The string capabilities from position 158.
static TEXTS_FROM_158: [&str; 28] = [
    "kbeg", "kcan", "kclo", "kcmd", "kcpy", "kcrt", "kend", "kent", "kext", "kfnd", "khlp", "kmrk",
    "kmsg", "kmov", "knxt", "kopn", "kopt", "kprv", "kprt", "krdo", "kref", "krfr", "krpl", "krst",
    "kres", "ksav", "kspd", "kund",
];

/// The string capabilities from position 216.
static TEXTS_FROM_216: [&str; 54] = [
    "kf11", "kf12", "kf13", "kf14", "kf15", "kf16", "kf17", "kf18", "kf19", "kf20", "kf21", "kf22",
    "kf23", "kf24", "kf25", "kf26", "kf27", "kf28", "kf29", "kf30", "kf31", "kf32", "kf33", "kf34",
    "kf35", "kf36", "kf37", "kf38", "kf39", "kf40", "kf41", "kf42", "kf43", "kf44", "kf45", "kf46",
    "kf47", "kf48", "kf49", "kf50", "kf51", "kf52", "kf53", "kf54", "kf55", "kf56", "kf57", "kf58",
    "kf59", "kf60", "kf61", "kf62", "kf63", "el1",
];

/// The string capability at position 297.
static TEXTS_FROM_297: [&str; 1] = ["op"];

/// The string capabilities from position 359.
static TEXTS_FROM_359: [&str; 2] = ["setaf", "setab"];

/// The three kinds of capability.
#[derive(Clone, Copy, Debug, PartialEq, Eq)]
pub enum Kind {
    /// Present or absent.
    Flag,
    /// A number from 0 to 32,767.
    Number,
    /// A string.
    Text,
}

/// A position among the capabilities of one kind, counted from 0.
#[derive(Clone, Copy, Debug, PartialEq, Eq)]
pub struct Slot(pub u16);

/// Names of one kind at consecutive positions, beginning at `first`.
#[derive(Clone, Copy)]
pub(crate) struct Run {
    pub(crate) kind: Kind,
    first: u16,
    names: &'static [&'static str],
}

const RUNS: usize = 10;

#[tactic(auto, using(crate::proofs::NamesLaws::names_are), unfolding(crate::specs::Table::runs))]
pub(crate) fn run_at(index: usize) -> Option<Run>
    ensures run { option_map seen result ≡ slice_get runs index }
    ensures few { MatchOption result ⊤ (λ r. r.first + length r.names.now < 65536) }
{
    let run = match index {
        0 => Run::new(Kind::Flag, 0, &FLAGS),
        1 => Run::new(Kind::Number, 0, &NUMBERS),
        2 => Run::new(Kind::Text, 0, &TEXTS_FROM_0),
        3 => Run::new(Kind::Text, 55, &TEXTS_FROM_55),
        4 => Run::new(Kind::Text, 90, &TEXTS_FROM_90),
        5 => Run::new(Kind::Text, 139, &TEXTS_FROM_139),
        6 => Run::new(Kind::Text, 158, &TEXTS_FROM_158),
        7 => Run::new(Kind::Text, 216, &TEXTS_FROM_216),
        8 => Run::new(Kind::Text, 297, &TEXTS_FROM_297),
        9 => Run::new(Kind::Text, 359, &TEXTS_FROM_359),
        _ => return None,
    };
    Some(run)
}

impl Run {
    /// The position of the name at an index of the run; `None` unless it is this name.
    pub(crate) fn slot_of(&self, index: u8, name: &[u8]) -> Option<Slot>
        requires { self.now.first + length self.now.names.now < 65536 }
        ensures { option_map (λ s. (self.now.kind, s.0)) result ≡ if_same name.now self.now.kind (self.now.first + index) (slice_get (seen self.now).names index) }
    {
        let known = self.names.get(usize::from(index))?;
        if known.as_bytes() == name {
            Some(Slot(self.first + u16::from(index)))
        } else {
            None
        }
    }

    pub(crate) const fn new(kind: Kind, first: u16, names: &'static [&'static str]) -> Run
        ensures { result ≡ record { kind = kind; first = first; names = names.entry } }
    {
        Run { kind, first, names }
    }

    /// The run's capability of this name.
    pub(crate) fn find(&self, name: &[u8]) -> Option<(Kind, Slot)>
        requires { self.now.first + length self.now.names.now < 65536 }
        ensures { option_map (λ p. (p.0, p.1.0)) result ≡ position_in name.now (seen self.now) }
    {
        for (index, known) in self.names.iter().enumerate() {
            if known.as_bytes() == name {
                return Some((self.kind, Slot(self.first + index as u16)));
            }
        }
        None
    }

    pub(crate) fn name_at(&self, kind: Kind, position: u16) -> Option<&'static str>
        ensures { option_map (λ s. s.now) result
            ≡ name_in kind position (seen self.now) }
    {
        if self.kind != kind || position < self.first {
            return None;
        }
        self.names.get(usize::from(position - self.first)).copied()
    }
}

/// The name of a capability; `None` if its position has none (terminfo(5)).
pub fn name_of(kind: Kind, slot: Slot) -> Option<&'static str>
    ensures { option_map (λ s. s.now) result ≡ name_at kind slot.0 }
{
    for index in 0..RUNS {
        let names = run_at(index)?;
        if let Some(name) = names.name_at(kind, slot.0) {
            return Some(name);
        }
    }
    None
}

/// The law of the table: looking up a capability's name finds that capability, and what is found
/// has that name. So no name occurs twice, and no position has two names.
pub fn names_stand_once()
    ensures found { (kind : Kind) (position : ℕ) (name : List ℕ) →
        name_at kind position ≡ Some name → capability_of name ≡ Some (kind, position) }
    ensures named { (kind : Kind) (position : ℕ) (name : List ℕ) →
        capability_of name ≡ Some (kind, position) → name_at kind position ≡ Some name }
{}

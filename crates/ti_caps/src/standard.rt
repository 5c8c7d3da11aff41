//! All names of capabilities that term.h has: those of the capability table, and others beside them.
//!
//! What this library knows of an entry it knows by the table (`name_of`, `find_name`). These names are for programs that
//! read and write whole entries.

ghost use Rattle.std.specs.Prelude.{ℕ, All, List, Some, ◌≡◌, ◌+◌, ◌<◌, length, map, option_map};
ghost use Rattle.ti_caps.specs.NameRuns.{seen};
ghost use Rattle.ti_caps.specs.Standard.{other_runs, standard_capability_of, standard_name_at};
ghost use Rattle.ti_caps.specs.Table.{found_among, name_among, name_at, position_from, position_in};
ghost use Rattle.ti_caps.specs.declared.table.Kind.{Kind};

use crate::table::{Kind, Run, Slot};
use crate::{buckets, table};

/// The other boolean capabilities from position 37.
static FLAGS_FROM_37: [&str; 7] = ["OTbs", "OTns", "OTnc", "OTMT", "OTNL", "OTpt", "OTxr"];

/// The other numeric capabilities from position 33.
static NUMBERS_FROM_33: [&str; 6] = ["OTug", "OTdC", "OTdN", "OTdB", "OTdT", "OTkn"];

/// The other string capabilities from position 186.
static TEXTS_FROM_186: [&str; 30] = [
    "kBEG", "kCAN", "kCMD", "kCPY", "kCRT", "kDC", "kDL", "kslt", "kEND", "kEOL", "kEXT", "kFND",
    "kHLP", "kHOM", "kIC", "kLFT", "kMSG", "kMOV", "kNXT", "kOPT", "kPRV", "kPRT", "kRDO", "kRPL",
    "kRIT", "kRES", "kSAV", "kSPD", "kUND", "rfi",
];

/// The other string capabilities from position 270.
static TEXTS_FROM_270: [&str; 27] = [
    "mgc", "smgl", "smgr", "fln", "sclk", "dclk", "rmclk", "cwin", "wingo", "hup", "dial", "qdial",
    "tone", "pulse", "hook", "pause", "wait", "u0", "u1", "u2", "u3", "u4", "u5", "u6", "u7", "u8",
    "u9",
];

/// The other string capabilities from position 298.
static TEXTS_FROM_298: [&str; 61] = [
    "oc", "initc", "initp", "scp", "setf", "setb", "cpi", "lpi", "chr", "cvr", "defc", "swidm",
    "sdrfq", "sitm", "slm", "smicm", "snlq", "snrmq", "sshm", "ssubm", "ssupm", "sum", "rwidm",
    "ritm", "rlm", "rmicm", "rshm", "rsubm", "rsupm", "rum", "mhpa", "mcud1", "mcub1", "mcuf1",
    "mvpa", "mcuu1", "porder", "mcud", "mcub", "mcuf", "mcuu", "scs", "smgb", "smgbp", "smglp",
    "smgrp", "smgt", "smgtp", "sbim", "scsd", "rbim", "rcsd", "subcs", "supcs", "docr", "zerom",
    "csnm", "kmous", "minfo", "reqmp", "getm",
];

/// The other string capabilities from position 361.
static TEXTS_FROM_361: [&str; 53] = [
    "pfxl", "devt", "csin", "s0ds", "s1ds", "s2ds", "s3ds", "smglr", "smgtb", "birep", "binel",
    "bicr", "colornm", "defbi", "endbi", "setcolor", "slines", "dispc", "smpch", "rmpch", "smsc",
    "rmsc", "pctrm", "scesc", "scesa", "ehhlm", "elhlm", "elohlm", "erhlm", "ethlm", "evhlm",
    "sgr1", "slength", "OTi2", "OTrs", "OTnl", "OTbc", "OTko", "OTma", "OTG2", "OTG3", "OTG1",
    "OTG4", "OTGR", "OTGL", "OTGU", "OTGD", "OTGH", "OTGV", "OTGC", "meml", "memu", "box1",
];

// The names beside the table.
#[tactic(auto, using(crate::proofs::StandardLaws::standard_names_are), unfolding(crate::specs::Standard::other_runs))]
fn others() -> [Run; 6]
    ensures runs { map seen result ≡ other_runs }
    ensures few { All (λ r. r.first + length r.names.now < 65536) result }
{
    [
        Run::new(Kind::Flag, 37, &FLAGS_FROM_37),
        Run::new(Kind::Number, 33, &NUMBERS_FROM_33),
        Run::new(Kind::Text, 186, &TEXTS_FROM_186),
        Run::new(Kind::Text, 270, &TEXTS_FROM_270),
        Run::new(Kind::Text, 298, &TEXTS_FROM_298),
        Run::new(Kind::Text, 361, &TEXTS_FROM_361),
    ]
}

/// The name of a capability in term.h; `None` if its position has none (X/Open Curses Issue 7, <term.h>).
#[tactic(auto, using(crate::proofs::StandardLaws::name_after))]
pub fn name_of(kind: Kind, slot: Slot) -> Option<&'static str>
    ensures { option_map (λ s. s.now) result ≡ standard_name_at kind slot.0 }
{
    match table::name_of(kind, slot) {
        Some(name) => Some(name),
        None => name_in(&others(), kind, slot),
    }
}

/// The kind and position of the capability of this name in term.h; `None` if there is none.
#[tactic(auto, using(crate::proofs::StandardLaws::found_after))]
pub fn find_name(name: &[u8]) -> Option<(Kind, Slot)>
    ensures { option_map (λ p. (p.0, p.1.0)) result ≡ standard_capability_of name.now }
{
    match buckets::find_name(name) {
        Some(found) => Some(found),
        None => find_in(&others(), name),
    }
}

/// The law of these names: looking up a capability's name finds that capability, and what is found has that name; and
/// each name of the table is at the same position.
pub fn names_stand_once()
    ensures found { (kind : Kind) (position : ℕ) (name : List ℕ) →
        standard_name_at kind position ≡ Some name → standard_capability_of name ≡ Some (kind, position) }
    ensures named { (kind : Kind) (position : ℕ) (name : List ℕ) →
        standard_capability_of name ≡ Some (kind, position) → standard_name_at kind position ≡ Some name }
    ensures table { (kind : Kind) (position : ℕ) (name : List ℕ) →
        name_at kind position ≡ Some name → standard_name_at kind position ≡ Some name }
{}

// The name at a position, in the first of these runs that has one.
fn name_in(runs: &[Run], kind: Kind, slot: Slot) -> Option<&'static str>
    ensures { option_map (λ s. s.now) result ≡ name_among kind slot.0 (map seen runs.now) }
{
    for run in runs {
        if let Some(name) = run.name_at(kind, slot.0) {
            return Some(name);
        }
    }
    None
}

// The capability of this name, in the first of these runs that has one.
fn find_in(runs: &[Run], name: &[u8]) -> Option<(Kind, Slot)>
    requires { All (λ r. r.first + length r.names.now < 65536) runs.now }
    ensures { option_map (λ p. (p.0, p.1.0)) result ≡ found_among name.now (map seen runs.now) }
{
    for run in runs {
        if let Some(found) = run.find(name) {
            return Some(found);
        }
    }
    None
}

//! The bundled entry, `ecma48`: a terminal that understands control functions of ECMA-48.

ghost use Rattle.std.specs.Prelude.{◌≡◌, ◌≤◌, ◌<◌, All, IfErr, IfOk, OnOk, Some, map, slice_set, true};
ghost use Rattle.std.specs.List.{AllPass};
ghost use Rattle.ti_caps.specs.Bundled.{IsBundled, bundled_texts};
ghost use Rattle.ti_caps.specs.Settings.{FitsNumber, fits_text, flags_set, numbers_set, texts_set};
ghost use Rattle.ti_caps.specs.declared.faults.CapFault.TheVariants.{NoMemory};

use crate::entry::Entry;
use crate::faults::CapFault;
use crate::slots::{
    AM, BLINK, BOLD, CLEAR, COLORS, COLS, CR, CUB, CUB1, CUD, CUD1, CUF, CUF1, CUP, CUU, CUU1, DIM,
    ECH, ED, EL, HOME, HPA, INVIS, KBS, KCUB1, KCUD1, KCUF1, KCUU1, LINES, MSGR, OP, PAIRS, REV,
    SETAB, SETAF, SGR, SGR0, SMSO, SMUL, VPA, XENL,
};
use crate::table::Slot;
use std::alloc::Global;

static NAMES: &str = "ecma48|ECMA-48 profile of this library";

static FLAGS: [Slot; 3] = [AM, MSGR, XENL];

static NUMBERS: [(Slot, u16); 4] = [(COLS, 80), (LINES, 24), (COLORS, 8), (PAIRS, 64)];

static TEXTS: [(Slot, &str); 34] = [
    (CUP, "\x1b[%i%p1%d;%p2%dH"),
    (HOME, "\x1b[H"),
    (CR, "\r"),
    (CUU1, "\x1b[A"),
    (CUD1, "\x1b[B"),
    (CUF1, "\x1b[C"),
    (CUB1, "\x08"),
    (CUU, "\x1b[%p1%dA"),
    (CUD, "\x1b[%p1%dB"),
    (CUF, "\x1b[%p1%dC"),
    (CUB, "\x1b[%p1%dD"),
    (HPA, "\x1b[%i%p1%dG"),
    (VPA, "\x1b[%i%p1%dd"),
    (CLEAR, "\x1b[H\x1b[2J"),
    (EL, "\x1b[K"),
    (ED, "\x1b[J"),
    (ECH, "\x1b[%p1%dX"),
    (SGR0, "\x1b[0m"),
    (BOLD, "\x1b[1m"),
    (DIM, "\x1b[2m"),
    (SMUL, "\x1b[4m"),
    (BLINK, "\x1b[5m"),
    (REV, "\x1b[7m"),
    (INVIS, "\x1b[8m"),
    (SMSO, "\x1b[7m"),
    (
        SGR,
        "\x1b[0%?%p1%p3%|%t;7%;%?%p2%t;4%;%?%p4%t;5%;%?%p5%t;2%;%?%p6%t;1%;%?%p7%t;8%;m",
    ),
    (SETAF, "\x1b[3%p1%dm"),
    (SETAB, "\x1b[4%p1%dm"),
    (OP, "\x1b[39;49m"),
    (KCUU1, "\x1b[A"),
    (KCUD1, "\x1b[B"),
    (KCUF1, "\x1b[C"),
    (KCUB1, "\x1b[D"),
    (KBS, "\x08"),
];

/// The bundled entry, `ecma48`: a terminal of 24 rows and 80 columns with eight colours and all
/// seven attributes. Its texts are control functions of ECMA-48 (8.3), and its keys are the arrows
/// and backspace. Fails only when memory runs out.
pub fn bundled(alloc: Global) -> Result<Entry, CapFault>
    ensures entry { IfOk result IsBundled }
    ensures memory { IfErr result (λ fault. fault ≡ NoMemory) }
{
    let mut entry = Entry::new(alloc, NAMES.as_bytes())?;
    set_flags(&mut entry, &FLAGS)?;
    set_numbers(&mut entry, &NUMBERS)?;
    set_texts(&mut entry, texts())?;
    Ok(entry)
}

// The texts of the entry.
fn texts() -> &'static [(Slot, &'static str)]
    ensures { map (λ p. (p.0.0, p.1.now)) result.now ≡ bundled_texts }
{
    &TEXTS
}

// Sets each of these flags.
fn set_flags(entry: &mut Entry, flags: &[Slot]) -> Result<(), CapFault>
    requires { All (λ slot. slot.0 < 64) flags.now }
    ensures ok { OnOk result (entry.new ≡ record entry.old { flags = flags_set entry.old.flags flags.now }) }
    ensures memory { IfErr result (λ fault. fault ≡ NoMemory) }
{
    for slot in flags {
        entry.set_flag(*slot, true)?;
    }
    Ok(())
}

// Sets each of these numbers.
fn set_numbers(entry: &mut Entry, numbers: &[(Slot, u16)]) -> Result<(), CapFault>
    requires { All FitsNumber numbers.now }
    ensures ok { OnOk result (entry.new ≡ record entry.old { numbers = numbers_set entry.old.numbers numbers.now }) }
    ensures memory { IfErr result (λ fault. fault ≡ NoMemory) }
{
    for (slot, number) in numbers {
        entry.set_number(*slot, Some(*number))?;
    }
    Ok(())
}

// Sets each of these texts.
fn set_texts(entry: &mut Entry, texts: &[(Slot, &str)]) -> Result<(), CapFault>
    requires { AllPass (λ p. fits_text (p.0.0, p.1.now)) texts.now }
    ensures ok { OnOk result (entry.new ≡ record entry.old { texts = texts_set entry.old.texts (map (λ p. (p.0.0, p.1.now)) texts.now) }) }
    ensures memory { IfErr result (λ fault. fault ≡ NoMemory) }
{
    for (slot, text) in texts {
        set_one_text(entry, *slot, text)?;
    }
    Ok(())
}

// Sets one text.
fn set_one_text(entry: &mut Entry, slot: Slot, text: &str) -> Result<(), CapFault>
    requires { fits_text (slot.0, text.now) ≡ true }
    ensures ok { OnOk result (entry.new ≡ record entry.old { texts = slice_set entry.old.texts slot.0 (Some text.now) }) }
    ensures memory { IfErr result (λ fault. fault ≡ NoMemory) }
{
    entry.set_text(slot, Some(text.as_bytes()))
}

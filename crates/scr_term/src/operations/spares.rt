//! The programs of the texts that a terminal can do without: which of these can be used, and which
//! count as absent.
ghost use Rattle.std.specs.Prelude.{◌≡◌, ◌++◌, IfOk, is_some, map};
ghost use Rattle.scr_term.specs.Operations.Admission.{is_spoiled, program_without_line_feed, sent_at, spare_program, used_program, within_limits};

use crate::operations::admission::{
    MOST_BYTES, MOST_DEPTH, add, parsed_program, sent_at, sent_text,
};
use crate::operations::capability::Capability;
use scr_cells::NoMemory;
use std::alloc::Global;
use ti_caps::{Entry, Slot, slots};
use ti_param::Program;

// The programs of these capabilities, after others.
pub(crate) fn with_spares(
    alloc: Global,
    entry: &Entry,
    programs: Vec<Option<Program>>,
    capabilities: &[Capability],
) -> Result<Vec<Option<Program>>, NoMemory>
    ensures { IfOk result (λ all. all.items ≡ programs.items ++ map (spare_program entry.now) capabilities.now) }
{
    let mut all = programs;
    for capability in capabilities {
        let program = spare_program(alloc, entry, *capability)?;
        add(&mut all, program)?;
    }
    Ok(all)
}

// The program of a spare capability; `None` if its text cannot be used.
fn spare_program(
    alloc: Global,
    entry: &Entry,
    capability: Capability,
) -> Result<Option<Program>, NoMemory>
    ensures { IfOk result (λ program. program ≡ spare_program entry.now capability) }
{
    if is_spoiled(alloc, entry, capability)? {
        return Ok(None);
    }
    match sent_text(alloc, entry, capability)? {
        Some(text) => used_program(alloc, capability, &text),
        None => Ok(None),
    }
}

// Whether the terminal moves lines or characters otherwise than operations do.
fn is_spoiled(alloc: Global, entry: &Entry, capability: Capability) -> Result<bool, NoMemory>
    ensures { IfOk result (λ spoiled. spoiled ≡ is_spoiled entry.now capability) }
{
    match capability {
        Capability::Il1
        | Capability::Il
        | Capability::Dl1
        | Capability::Dl
        | Capability::Ind
        | Capability::Ri
        | Capability::Indn
        | Capability::Rin => Ok(entry.flag(slots::DA) || entry.flag(slots::DB)),
        Capability::Ich => Ok(entry.flag(slots::IN)),
        Capability::Dch1 | Capability::Dch => has_text(alloc, entry, slots::SMDC),
        _ => Ok(false),
    }
}

// Whether something is sent for the text at a position.
fn has_text(alloc: Global, entry: &Entry, slot: Slot) -> Result<bool, NoMemory>
    ensures { IfOk result (λ there. there ≡ is_some (sent_at entry.now slot)) }
{
    let text = sent_at(alloc, entry, slot)?;
    Ok(text.is_some())
}

// The program of the text of a spare capability; only `ind` may contain a line feed.
fn used_program(
    alloc: Global,
    capability: Capability,
    text: &[u8],
) -> Result<Option<Program>, NoMemory>
    ensures { IfOk result (λ program. program ≡ used_program capability text.now) }
{
    match capability {
        Capability::Ind => Ok(within_limits(parsed_program(alloc, text)?)),
        _ => program_without_line_feed(alloc, text),
    }
}

// The program of a text; `None` if it is not a parameter string, exceeds the limits or contains a line
// feed.
fn program_without_line_feed(alloc: Global, text: &[u8]) -> Result<Option<Program>, NoMemory>
    ensures { IfOk result (λ program. program ≡ program_without_line_feed text.now) }
{
    if text.contains(&b'\n') {
        return Ok(None);
    }
    Ok(within_limits(parsed_program(alloc, text)?))
}

// The program, if it keeps to the limits.
fn within_limits(program: Option<Program>) -> Option<Program>
    ensures { result ≡ within_limits program }
{
    match program {
        Some(program) if program.depth() <= MOST_DEPTH && program.bound() <= MOST_BYTES => {
            Some(program)
        }
        _ => None,
    }
}

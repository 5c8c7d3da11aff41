//! Laws of what is remembered, as contracts of functions that do nothing.
ghost use Rattle.scr_memory.specs.Memories.{MemoryLaws};
ghost use Rattle.scr_memory.specs.MemoryRuns.{KnownMemories, MemoryRuns};

use scr_cells::{Look, grid_laws};
use scr_term::{blank_laws, shown_pen_laws, steps_keep_states};

/// If a state agrees with what is remembered of the terminal and an operation is defined from it,
/// the state after it agrees with what is remembered then; and if all was known, all is. A mark
/// makes what others wrote unknown. After forgetting, every state of every terminal of that size
/// agrees.
pub fn memory_laws()
    ensures { MemoryLaws }
{
    shown_pen_laws();
    steps_keep_states();
    grid_laws::<Look>();
}

/// If a state agrees with what is remembered of the terminal and operations are defined from it,
/// the state after them agrees with what is remembered then; and if all was known, all is. If they
/// are defined from the remembered state, that state follows their run. At first, when nothing is
/// known, every state agrees.
pub fn memory_runs()
    ensures { MemoryRuns }
{
    blank_laws();
    memory_laws();
}

/// If all is known, a state that agrees with what is remembered is the remembered one.
pub fn known_memories()
    ensures { KnownMemories }
{
    grid_laws::<Look>();
}

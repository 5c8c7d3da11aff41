//! Laws of compiling, as contracts of functions that do nothing.

ghost use Rattle.ti_compile.specs.Once.{CompileOnce, CompiledOrFaulty, FaultyOnce};

use ti_source::{names_have_one_fault, names_resolve_once, resolved_names_have_no_fault};

/// A source is compiled to at most one result.
pub fn sources_compile_once()
    ensures { CompileOnce }
{
    names_resolve_once();
}

/// A source has at most one error: that of reading, or of the first entry that is refused.
pub fn sources_have_one_fault()
    ensures { FaultyOnce }
{
    names_resolve_once();
    names_have_one_fault();
    resolved_names_have_no_fault();
}

/// A source that can be compiled has no error.
pub fn compiled_sources_have_no_fault()
    ensures { CompiledOrFaulty }
{
    names_resolve_once();
    resolved_names_have_no_fault();
}

//! Listing a compiled file as source (tic(1), infocmp(1)).

ghost use Rattle.std.specs.Prelude.{◌≡◌, ◌⊎◌, IfErr, IfOk, IsErrOf, IsOkUnless, None, Some};
ghost use Rattle.ti_binary.specs.declared.faults.BinFault.{BinFault};
ghost use Rattle.ti_binary.specs.declared.widths.Width.TheVariants.{Legacy};
ghost use Rattle.ti_binary.specs.Files.{Reads, refusal};
ghost use Rattle.ti_caps.specs.Description.{Description, unnamed_count};
ghost use Rattle.ti_source.specs.Printing.Print.{printed};
ghost use Rattle.ti_source.specs.Printing.ReadBack.{ReadsBack};
ghost use Rattle.ti_compile.specs.Faults.{IsPlain};

use crate::faults::TicFault;
use std::alloc::Global;
use ti_binary::{decode, files_are_not_refused};
use ti_caps::Bytes;
use ti_source::print;

/// A compiled file as source text, and what the text leaves out.
#[derive(Debug, Drop)]
pub struct Listing {
    /// The source text of the file's entry.
    pub text: Bytes,
    /// The number of present capabilities that have no name, and are left out.
    pub unnamed: usize,
    /// The number of bytes after the string table, which are left out too.
    pub skipped: usize,
}

/// Lists a compiled file: the source text of its entry, how many of its capabilities are left out
/// because they have no name, and how many bytes follow its string table (term(5), 'Legacy Storage
/// Format'). The text is a source of one entry, which resolves to the file's entry without its
/// unnamed capabilities.
///
/// Refused with `Decode` and the first reason why the bytes are not a file; with `NoMemory` if
/// memory runs out and there is no such reason.
pub fn list(alloc: Global, bytes: &[u8]) -> Result<Listing, TicFault>
    ensures ok { IfOk result (λ l. (d : Description) × Reads Legacy bytes.now d l.skipped × (l.text ≡ printed d) × (l.unnamed ≡ unnamed_count d) × ReadsBack d) }
    ensures err { IfErr result (λ f. (f ≡ TicFault.NoMemory) ⊎ ((b : BinFault) × (refusal Legacy bytes.now ≡ Some b) × (f ≡ TicFault.Decode b))) }
    ensures memory { IsErrOf result TicFault.NoMemory → refusal Legacy bytes.now ≡ None }
    ensures good { refusal Legacy bytes.now ≡ None → IsOkUnless result TicFault.NoMemory }
    ensures plain { IfErr result IsPlain }
{
    let (entry, skipped) = decode(alloc, bytes)?;
    files_are_not_refused();
    let printed = print(alloc, &entry)?;
    Ok(Listing {
        text: printed.text,
        unnamed: printed.unnamed,
        skipped,
    })
}

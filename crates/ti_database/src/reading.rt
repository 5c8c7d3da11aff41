//! Reading a compiled entry in either format.
ghost use Rattle.std.specs.Prelude.{◌≡◌, ◌⊎◌, IfErr, IfOk, IsErrOf, IsOkUnless, None, Some, true, false};
ghost use Rattle.ti_database.specs.Search.{IsEntry, entry_refusal, is_wide};

use std::alloc::Global;
use ti_binary::{BinFault, decode, decode_wide};
use ti_caps::Entry;

/// Reads a compiled entry with 16-bit or 32-bit numbers, as its magic number says (term(5)). What
/// follows the string table is not looked at.
///
/// Numbers above 32,767 count as 32,767. A terminal's profile is the same with these: it asks
/// whether there are 8 colours and 64 pairs, and takes at most 500 rows and columns.
///
/// Refused as by `ti_binary::decode` and `ti_binary::decode_wide`, but never with `WideNumbers`.
pub fn read_entry(alloc: Global, bytes: &[u8]) -> Result<Entry, BinFault>
    ensures refused { IfErr result (λ fault. (fault ≡ BinFault.NoMemory) ⊎ (entry_refusal bytes.now ≡ Some fault)) }
    ensures memory { IsErrOf result BinFault.NoMemory → entry_refusal bytes.now ≡ None }
    ensures good { entry_refusal bytes.now ≡ None → IsOkUnless result BinFault.NoMemory }
    ensures ok { IfOk result (λ entry. IsEntry bytes.now entry) }
{
    if is_wide(bytes) {
        match decode_wide(alloc, bytes) {
            Ok(decoded) => Ok(decoded.entry),
            Err(fault) => Err(fault),
        }
    } else {
        match decode(alloc, bytes) {
            Ok((entry, _)) => Ok(entry),
            Err(fault) => Err(fault),
        }
    }
}

// Whether a file begins with the magic number of 32-bit numbers, octal 01036.
fn is_wide(bytes: &[u8]) -> bool
    ensures { result ≡ is_wide bytes.now }
{
    matches!(bytes, [0o36, 0o2, ..])
}

//! Laws of the files of whole entries, as contracts of functions that do nothing.
//! `specs/WholeLaws.antt` states them.
ghost use Rattle.ti_extended.specs.WholeLaws.{EntriesAreClamped, FilesHaveOneWhole, PlainFormsAreCanonical, WholeFormReadsBack};

use ti_binary::{files_have_one_entry, long_names_read_back};

/// Bytes are the file of at most one whole entry.
pub fn files_have_one_whole()
    ensures { FilesHaveOneWhole }
{
    files_have_one_entry();
}

/// The numbers of the entry that is read from a file are its whole numbers, with 32,767 in the
/// place of all above.
pub fn entries_are_clamped()
    ensures { EntriesAreClamped }
{}

/// What `encode_whole` writes is a file of that whole entry and of no other, so `decode_whole`
/// gives the same.
pub fn whole_form_reads_back()
    ensures { WholeFormReadsBack }
{
    long_names_read_back();
    files_have_one_entry();
}

/// Without extended capabilities and numbers above 32,767, `encode_whole` writes what
/// `ti_binary::encode` does.
pub fn plain_forms_are_canonical()
    ensures { PlainFormsAreCanonical }
{}

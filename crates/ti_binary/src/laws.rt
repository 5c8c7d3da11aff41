//! Laws of compiled files, as contracts of functions that do nothing. `specs/FileLaws.antt` states
//! them.
ghost use Rattle.ti_binary.specs.FileLaws.{CanonicalReadsBack, FilesAreNotRefused, FilesHaveOneEntry, LongNamesReadBack};

/// No refusal applies to bytes that are a file of some entry, so `decode` reads them, or
/// `decode_wide` where the numbers have 32 bits, if there is memory.
pub fn files_are_not_refused()
    ensures { FilesAreNotRefused }
{}

/// Bytes are a file with numbers of some width of at most one entry, with one number of bytes that
/// follow.
pub fn files_have_one_entry()
    ensures { FilesHaveOneEntry }
{}

/// The canonical form of an entry, if it is within the limits of `encode`, is a file of that entry
/// and of no other, and nothing follows it.
pub fn canonical_reads_back()
    ensures { CanonicalReadsBack }
{}

/// The same of an entry whose names may be longer, within the limit of `encode_with_long_names`.
pub fn long_names_read_back()
    ensures { LongNamesReadBack }
{}

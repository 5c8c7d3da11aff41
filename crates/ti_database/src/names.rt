//! Which names a terminal's entry can be looked up by.
ghost use Rattle.std.specs.Prelude.{◌≡◌};
ghost use Rattle.std.specs.List.{list_all};
ghost use Rattle.ti_database.specs.Places.{is_dots, is_file_byte, is_terminal_name};

/// Whether an entry can be looked up by this name: it is not empty and neither `.` nor `..`, and
/// its bytes are from 33 to 126 and no `/`.
pub(crate) fn is_terminal_name(name: &[u8]) -> bool
    ensures { result ≡ is_terminal_name name.now }
{
    !name.is_empty() && are_file_bytes(name) && !is_dots(name)
}

fn are_file_bytes(name: &[u8]) -> bool
    ensures { result ≡ list_all is_file_byte name.now }
{
    name.iter()
        .all(|byte| (33..=126).contains(byte) && *byte != b'/')
}

fn is_dots(name: &[u8]) -> bool
    ensures { result ≡ is_dots name.now }
{
    matches!(name, [b'.'] | [b'.', b'.'])
}

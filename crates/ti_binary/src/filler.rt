//! Filling an entry with what the sections of a file say.
ghost use Rattle.std.specs.Prelude.{◌≡◌, ◌≤◌, ◌*◌, false, length, map, replicate, IfErr, OnOk, None};
ghost use Rattle.ti_binary.specs.Files.{clamped_count, flag_said, number_said, numbers_in, numbers_size, padded, text_said, words_in};

use crate::faults::BinFault;
use crate::parts::word;
use crate::texts::text_said;
use crate::widths::Width;
use ti_caps::{CapFault, Entry, Slot};

/// Sets the flags that a section says are present, in an entry without flags.
pub(crate) fn set_flags(entry: &mut Entry, flags: &[u8])
    requires few { length flags.now ≤ 64 }
    requires bare { entry.old.flags ≡ replicate 64 false }
    ensures { entry.new ≡ record entry.old { flags = padded 64 false (map flag_said flags.now) } }
{
    for (slot, byte) in flags.iter().enumerate() {
        let _ = entry.set_flag(Slot(slot as u16), *byte == 1);
    }
}

/// Sets the numbers that a section gives, in an entry without numbers. Gives how many are above
/// 32,767, and are set to that.
pub(crate) fn set_numbers(entry: &mut Entry, width: Width, numbers: &[u8], count: u16) -> u16
    requires few { count ≤ 64 }
    requires room { numbers_size width count ≤ length numbers.now }
    requires bare { entry.old.numbers ≡ replicate 64 None }
    ensures set { entry.new ≡ record entry.old { numbers = padded 64 None (map (number_said width) (numbers_in width numbers.now count)) } }
    ensures clamped { result ≡ clamped_count width numbers.now count }
{
    let mut clamped = 0;
    for slot in 0..count {
        let number = width.number(numbers, usize::from(slot));
        let _ = entry.set_number(Slot(slot), width.said(number));
        clamped += u16::from(width.is_clamped(number));
    }
    clamped
}

/// Sets the texts at these offsets, in an entry without texts. Fails only when memory runs out.
pub(crate) fn set_texts(
    entry: &mut Entry,
    table: &[u8],
    offsets: &[u8],
    count: u16,
) -> Result<(), BinFault>
    requires few { count ≤ 512 }
    requires room { 2 * count ≤ length offsets.now }
    requires bare { entry.old.texts ≡ replicate 512 None }
    ensures ok { OnOk result (entry.new ≡ record entry.old { texts = padded 512 None (map (text_said table.now) (words_in offsets.now count)) }) }
    ensures memory { IfErr result (λ fault. fault ≡ BinFault.NoMemory) }
{
    for slot in 0..count {
        let said = text_said(table, word(offsets, 2 * usize::from(slot)));
        if let Err(fault) = entry.set_text(Slot(slot), said) {
            return Err(want_of_memory(fault));
        }
    }
    Ok(())
}

/// The error of an entry where only memory can run out.
pub(crate) fn want_of_memory(fault: CapFault) -> BinFault
    requires { fault ≡ CapFault.NoMemory }
    ensures { result ≡ BinFault.NoMemory }
{
    match fault {
        CapFault::NoMemory => BinFault::NoMemory,
        CapFault::BadNames | CapFault::SlotTooBig | CapFault::NulInText => BinFault::BadNames,
    }
}

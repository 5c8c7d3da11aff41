//! For each byte, how long the longest text is that begins with it.
ghost use Rattle.std.specs.Prelude.{ℕ, ◌≡◌, ◌<◌, ◌≤◌, get_or, length, max};
ghost use Rattle.scr_keys.specs.Code.Maps.{length_from};

// The lengths of no texts.
pub(crate) fn no_texts() -> [u8; 256]
    ensures { (byte : ℕ) → byte < 256 → get_or result byte 0 ≡ 0 }
{
    [0; 256]
}

// Takes one more text into account: the longest that begins with its first byte has at least as many bytes.
pub(crate) fn add_text(firsts: &mut [u8; 256], text: &[u8])
    requires { length text.now ≤ 64 }
    ensures { (byte : ℕ) → byte < 256 → get_or firsts.new byte 0 ≡ max (get_or firsts.old byte 0) (length_from byte text.now) }
{
    if let Some(byte) = text.first() {
        let first = usize::from(*byte);
        firsts[first] = firsts[first].max(text.len() as u8);
    }
}

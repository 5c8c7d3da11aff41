//! Cutting a text at a byte.
ghost use Rattle.std.specs.Prelude.{◌≡◌, ◌==◌, ◌∷◌, ◌<◌, None, IfSome, length};
ghost use Rattle.std.specs.List.{slice_split};
ghost use Rattle.std.specs.Option.{option_copied};
ghost use Rattle.screen_calls.specs.Fields.{parts_after};

/// What precedes the first such byte, and what follows it; `None` if there is none.
pub fn cut_at(byte: u8, text: &[u8]) -> (&[u8], Option<&[u8]>)
    ensures parts { slice_split (λ b. b == byte) text.now ≡ result.0.now ∷ parts_after byte (option_copied result.1) }
    ensures whole { option_copied result.1 ≡ None → result.0.now ≡ text.now }
    ensures shorter { IfSome result.1 (λ rest. length rest.now < length text.now) }
{
    for (place, b) in text.iter().enumerate() {
        if *b == byte {
            return (&text[..place], Some(&text[place + 1..]));
        }
    }
    (text, None)
}

//! A script cut into lines.
ghost use Rattle.std.specs.Prelude.{◌≡◌, ◌∷◌, ◌<◌, length};
ghost use Rattle.screen_scripts.specs.Lines.{lines_of};

use screen_calls::cut_at;

/// The first line of a script, which must not be empty, and what follows the line's end.
pub fn cut_line(script: &[u8]) -> (&[u8], &[u8])
    requires { 0 < length script.now }
    ensures lines { lines_of script.now ≡ result.0.now ∷ lines_of result.1.now }
    ensures shorter { length result.1.now < length script.now }
{
    let (line, rest) = cut_at(b'\n', script);
    match rest {
        Some(rest) => (line, rest),
        None => (line, &[]),
    }
}

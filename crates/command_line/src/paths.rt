//! Paths of the command line.
ghost use Rattle.std.specs.Prelude.{◌≡◌};
ghost use Rattle.command_line.specs.Options as spec;

/// Whether a word can be a path: one that begins with a dash looks like an option.
pub fn is_path(word: &str) -> bool
    ensures { result ≡ spec.is_path word.now }
{
    match word.as_bytes() {
        [] => false,
        [first, ..] => *first != b'-',
    }
}

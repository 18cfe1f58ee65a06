//! Numbers of the command line.
ghost use Rattle.std.specs.Prelude.{◌≡◌};
ghost use Rattle.std.specs.List.{list_all};
ghost use Rattle.command_line.specs.Options as spec;
ghost use Rattle.command_line.specs.Words.{seed_of};

/// The first seed.
const FIRST_SEED: u64 = 0;

/// The last seed.
const LAST_SEED: u64 = 4_294_967_295;

/// The number of a text of 1 to 12 digits, from the first to the last.
pub fn number(text: &str, first: u64, last: u64) -> Option<u64>
    ensures { result ≡ spec.number_of first last text.now }
{
    if !is_number(text.as_bytes()) {
        return None;
    }
    match text.parse::<u64>() {
        Ok(n) => within(first, last, n),
        Err(_) => None,
    }
}

/// The seed that a text is.
pub fn seed(text: &str) -> Option<u32>
    ensures { result ≡ seed_of text.now }
{
    match number(text, FIRST_SEED, LAST_SEED) {
        Some(n) => Some(n as u32),
        None => None,
    }
}

fn within(first: u64, last: u64, n: u64) -> Option<u64>
    ensures { result ≡ spec.within first last n }
{
    if first <= n && n <= last {
        Some(n)
    } else {
        None
    }
}

fn is_number(text: &[u8]) -> bool
    ensures { result ≡ spec.is_number text.now }
{
    1 <= text.len() && text.len() <= 12 && are_digits(text)
}

fn are_digits(text: &[u8]) -> bool
    ensures { result ≡ list_all spec.is_digit text.now }
{
    text.iter().all(|b| is_digit(*b))
}

fn is_digit(b: u8) -> bool
    ensures { result ≡ spec.is_digit b }
{
    b'0' <= b && b <= b'9'
}

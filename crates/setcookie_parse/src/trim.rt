//! Texts without the spaces and tabs at their ends.
ghost use Rattle.std.specs.Prelude.{◌≡◌, ◌<◌, ◌-◌, take, drop, length, slice_index};
ghost use Rattle.std.specs.List.{prefix_len, suffix_len};
ghost use Rattle.setcookie_parse.specs.SetCookie.{is_blank, trimmed};

pub fn trimmed(text: &str) -> &str
    ensures { result.now ≡ trimmed text.now }
{
    trim_end(trim_start(text))
}

fn trim_start(text: &str) -> &str
    ensures { result.now ≡ drop (prefix_len is_blank text.now) text.now }
{
    &text[blanks_before(text)..]
}

fn trim_end(text: &str) -> &str
    ensures { result.now ≡ take (length text.now - suffix_len is_blank text.now) text.now }
{
    &text[..len_without_blanks(text)]
}

/// How many spaces and tabs a text begins with.
fn blanks_before(text: &str) -> usize
    ensures { result ≡ prefix_len is_blank text.now }
{
    let bytes = text.as_bytes();
    let mut count = 0;
    while count < bytes.len() && is_blank(bytes[count]) {
        count += 1;
    }
    count
}

/// How many bytes stand before the spaces and tabs that a text ends with.
fn len_without_blanks(text: &str) -> usize
    ensures len { result ≡ length text.now - suffix_len is_blank text.now }
    ensures cut { result < length text.now → slice_index text.now result < 128 }
{
    let bytes = text.as_bytes();
    let mut len = bytes.len();
    while len > 0 && is_blank(bytes[len - 1]) {
        len -= 1;
    }
    len
}

fn is_blank(b: u8) -> bool
    ensures { result ≡ is_blank b }
{
    b == b' ' || b == b'\t'
}

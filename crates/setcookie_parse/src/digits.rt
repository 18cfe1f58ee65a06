//! Decimal digits.
ghost use Rattle.std.specs.Prelude.{◌≡◌, ◌≤◌, length, min};
ghost use Rattle.std.specs.List.{prefix_len, AllPass};
ghost use Rattle.std.specs.Char.{is_ascii_digit};
ghost use Rattle.std.specs.Str.Parse.{digits_value};

/// How many digits a text begins with.
pub fn leading_digits(text: &[u8]) -> usize
    ensures count { result ≡ prefix_len is_ascii_digit text.now }
    ensures within { result ≤ length text.now }
{
    let mut count = 0;
    while count < text.len() && text[count].is_ascii_digit() {
        count += 1;
    }
    count
}

/// The number that digits write, and the limit where that is more.
pub fn capped_number(digits: &[u8], limit: u32) -> u32
    requires digits { AllPass is_ascii_digit digits.now }
    requires small { limit ≤ 100000000 }
    ensures { result ≡ min (digits_value 10 digits.now) limit }
{
    let mut number = 0;
    for digit in digits {
        number = (number * 10 + u32::from(*digit - b'0')).min(limit);
    }
    number
}

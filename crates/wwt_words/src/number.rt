ghost use Rattle.std.specs.Prelude.{◌≡◌, ◌≤◌, ◌&&◌, nat_le, IfSome, if◌then◌else◌};
ghost use Rattle.std.specs.Str.{all_ascii_digits};
ghost use Rattle.wwt_words.specs.Numbers.{is_numeral, number_of};

/// The number that 1 to 20 decimal digits write, where it is from `least` to `greatest`.
pub fn number(text: &str, least: u64, greatest: u64) -> Option<u64>
    ensures value { result ≡ number_of least greatest text.now }
    ensures range { IfSome result (λ number. number ≤ greatest) }
{
    if !is_numeral(text) {
        return None;
    }
    match text.parse::<u64>() {
        Ok(number) => within(number, least, greatest),
        Err(_) => None,
    }
}

/// The number, where it is from `least` to `greatest`.
fn within(number: u64, least: u64, greatest: u64) -> Option<u64>
    ensures value { result ≡ (if nat_le least number && nat_le number greatest then Some number else None) }
    ensures range { IfSome result (λ number. number ≤ greatest) }
{
    if least <= number && number <= greatest {
        Some(number)
    } else {
        None
    }
}

/// Whether the text is 1 to 20 decimal digits.
fn is_numeral(text: &str) -> bool
    ensures { result ≡ is_numeral text.now }
{
    let bytes = text.as_bytes();
    !bytes.is_empty() && bytes.len() <= 20 && are_digits(bytes)
}

/// Whether each byte is a decimal digit.
fn are_digits(bytes: &[u8]) -> bool
    ensures { result ≡ all_ascii_digits bytes.now }
{
    for byte in bytes {
        if !byte.is_ascii_digit() {
            return false;
        }
    }
    true
}

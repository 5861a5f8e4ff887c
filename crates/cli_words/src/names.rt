//! Names of files, and numbers.
ghost use Rattle.std.specs.Prelude.{◌≡◌};
ghost use Rattle.std.specs.List.{list_any, list_all};
ghost use Rattle.cli_words.specs.Names.{is_control, is_file_name, is_positive_decimal, number_to};
ghost use Rattle.outside.specs.Decimal.{is_digit};

fn has_control(bytes: &[u8]) -> bool
    ensures { result ≡ list_any is_control bytes.now }
{
    bytes.iter().any(|c| *c < 32 || *c == 127)
}

pub(crate) fn is_file_name(name: &str) -> bool
    ensures { result ≡ is_file_name name.now }
{
    !name.is_empty() && name.len() <= 4096 && !has_control(name.as_bytes())
}

fn are_digits(bytes: &[u8]) -> bool
    ensures { result ≡ list_all is_digit bytes.now }
{
    bytes.iter().all(|c| c.is_ascii_digit())
}

fn is_decimal(bytes: &[u8]) -> bool
    ensures { result ≡ is_positive_decimal bytes.now }
{
    match bytes {
        [] => false,
        [first, ..] => *first != b'0' && are_digits(bytes),
    }
}

/// The number of a text of digits without a leading 0 and a sign, where it is at most the greatest.
pub(crate) fn number_to(greatest: u32, text: &str) -> Option<u32>
    ensures { result ≡ number_to greatest text.now }
{
    if !is_decimal(text.as_bytes()) {
        return None;
    }
    match text.parse::<u32>() {
        Ok(number) => {
            if number <= greatest {
                Some(number)
            } else {
                None
            }
        }
        Err(_) => None,
    }
}

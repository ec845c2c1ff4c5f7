ghost use Rattle.std.specs.Prelude.{◌≡◌, true, ◌<◌, ◌≤◌, ◌^◌, None, Some, length, IfSome, if◌then◌else◌};
ghost use Rattle.std.specs.Char.{is_ascii_digit};
ghost use Rattle.std.specs.List.{list_all};
ghost use Rattle.redo_line.specs.Decimal as spec;

/// Returns the value of decimal digits, or `None` if there are no bytes, if there are more than `max_digits`,
/// or if a byte is not a digit. Leading zeros count as digits. `max_digits` must be at most 19.
pub fn read_number(max_digits: usize, digits: &[u8]) -> Option<u64>
    requires { max_digits ≤ 19 }
    ensures value { result ≡ spec.number_of max_digits digits.now }
    ensures below { IfSome result (λ value. value < 10 ^ max_digits) }
{
    if are_digits(max_digits, digits) {
        Some(number(digits))
    } else {
        None
    }
}

/// Returns whether the bytes are decimal digits, at least one and at most `max_digits`.
pub fn are_digits(max_digits: usize, bytes: &[u8]) -> bool
    ensures { result ≡ spec.are_digits max_digits bytes.now }
{
    !bytes.is_empty() && bytes.len() <= max_digits && all_digits(bytes)
}

fn all_digits(bytes: &[u8]) -> bool
    ensures { result ≡ list_all is_ascii_digit bytes.now }
{
    bytes.iter().all(|&byte| byte.is_ascii_digit())
}

fn number(digits: &[u8]) -> u64
    requires at_most { length digits.now ≤ 19 }
    requires all { list_all is_ascii_digit digits.now ≡ true }
    ensures value { result ≡ spec.number digits.now }
    ensures below { result < 10 ^ length digits.now }
{
    let mut number = 0;
    for &digit in digits {
        number = number * 10 + u64::from(digit - b'0');
    }
    number
}

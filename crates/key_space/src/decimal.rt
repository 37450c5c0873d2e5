// Decimals, and those without leading zeros, as a value and the width of a slot write numbers.
ghost use Rattle.std.specs.Prelude.{◌≡◌, ◌≤◌, ◌-◌, ◌^◌, SomeIff};
ghost use Rattle.std.specs.List.{list_all};
ghost use Rattle.semantics.specs.Outputs.{digits_value, is_digit, is_positive};

/// Whether each byte is a digit, which holds of no bytes too. Linear in them.
pub fn are_digits(bytes: &[u8]) -> bool
    ensures { result ≡ list_all is_digit bytes.now }
{
    bytes.iter().all(|byte| b'0' <= *byte && *byte <= b'9')
}

/// Whether the bytes are the decimal of a number above 0: a digit 1 to 9, and further digits. Linear in them.
pub fn is_positive(bytes: &[u8]) -> bool
    ensures { result ≡ is_positive bytes.now }
{
    match bytes.split_first() {
        Some((first, others)) => b'1' <= *first && *first <= b'9' && are_digits(others),
        None => false,
    }
}

/// Gives the number that the digits write; none where it is beyond 64 bits. Linear in them.
pub fn digits_value(digits: &[u8]) -> Option<u64>
    ensures { SomeIff result (digits_value digits.now ≤ 2 ^ 64 - 1) (digits_value digits.now) }
{
    let mut number: u64 = 0;
    for digit in digits {
        let next = 10 * u128::from(number) + u128::from(digit.saturating_sub(b'0'));
        if next > u128::from(u64::MAX) {
            return None;
        }
        number = next as u64;
    }
    Some(number)
}

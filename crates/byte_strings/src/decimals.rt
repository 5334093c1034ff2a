//! Decimals and their values.

ghost use Rattle.std.specs.Prelude.{◌≡◌, ◌+◌, ◌*◌, ◌<◌, ◌^◌, true};
ghost use Rattle.std.specs.Str.Parse.{digits_value};
ghost use Rattle.std.specs.List.{list_all};
ghost use Rattle.std.specs.Option.{SomeIff};
ghost use Rattle.std.specs.Char.{is_ascii_digit, digit_value};
ghost use Rattle.byte_strings.specs.Decimals.{is_decimal as decimal_test};
ghost use Rattle.byte_strings.specs.Decimals.{decimal_from_to as number_from_to};

fn all_digits(text: &[u8]) -> bool
    ensures { result ≡ list_all is_ascii_digit text.now }
{
    text.iter().all(|digit| digit.is_ascii_digit())
}

/// Whether the text is `0`, or a digit 1 to 9 followed by digits 0 to 9.
pub fn is_decimal(text: &[u8]) -> bool
    ensures { result ≡ decimal_test text.now }
{
    match text {
        [] => false,
        [digit] => digit.is_ascii_digit(),
        [first, ..] => *first != b'0' && all_digits(text),
    }
}

// The number that goes on with one more digit, where it is below 2^64.
fn with_digit(value: u64, digit: u8) -> Option<u64>
    requires { is_ascii_digit digit ≡ true }
    ensures { SomeIff result (value * 10 + digit_value digit < 2 ^ 64)
        (value * 10 + digit_value digit) }
{
    value.checked_mul(10)?.checked_add((digit - b'0') as u64)
}

/// The number that a decimal writes, where it is below 2^64.
#[tactic(auto, using(crate::proofs::Numbers::number_facts))]
pub fn value_of(text: &[u8]) -> Option<u64>
    requires { decimal_test text.now ≡ true }
    ensures { SomeIff result (digits_value 10 text.now < 2 ^ 64) (digits_value 10 text.now) }
{
    let mut value = 0;
    'digits: for digit in text {
        value = with_digit(value, *digit)?;
    }
    Some(value)
}

/// The number that the text writes, where it is a decimal from `low` to `high`, both within.
pub fn decimal_from_to(text: &[u8], low: u64, high: u64) -> Option<u64>
    ensures { result ≡ number_from_to low high text.now }
{
    if !is_decimal(text) {
        return None;
    }
    match value_of(text) {
        Some(value) if low <= value && value <= high => Some(value),
        _ => None,
    }
}

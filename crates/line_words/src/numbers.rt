//! Reads numbers in words.
ghost use Rattle.std.specs.Prelude.{◌≡◌, ◌≤◌, ◌+◌, ◌*◌, SomeIff};
ghost use Rattle.line_words.specs.Numbers.{number_in};

/// Reads a number in this radix that is at most `most`: one or more digits, with leading zeros allowed and no sign. Costs the length of the word.
pub fn number_in(radix: u32, most: u64, word: &[u8]) -> Option<u64>
    requires least { 2 ≤ radix }
    requires greatest { radix ≤ 36 }
    ensures { result ≡ number_in radix most word.now }
{
    if word.is_empty() {
        return None;
    }
    let mut number = 0;
    'digits: for byte in word {
        let digit = char::from(*byte).to_digit(radix)?;
        number = with_digit(radix, most, number, digit)?;
    }
    Some(number)
}

/// Appends a digit to a number, or returns `None` if the result is above `most`.
fn with_digit(radix: u32, most: u64, number: u64, digit: u32) -> Option<u64>
    ensures { SomeIff result (number * radix + digit ≤ most) (number * radix + digit) }
{
    let number = number
        .checked_mul(u64::from(radix))?
        .checked_add(u64::from(digit))?;
    (number <= most).then_some(number)
}

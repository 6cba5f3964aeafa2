//! Whole numbers in fields of text: what a field's bytes say as an `i64`. The definition is `int_of_text`.

ghost use Rattle.std.specs.Prelude.{◌≡◌};
ghost use Rattle.hv_value.specs.Number.{int_of_text, u64_of_text};

/// The whole number that a field writes: an optional `-` and then one or more ASCII digits, with a value in `i64`.
/// `None` for every other text. One pass over the bytes, up to the first that settles it, and no memory.
#[tactic(auto, unfolding(crate::specs::Number::int_of_text))]
pub fn int_of(text: &[u8]) -> Option<i64>
    ensures { result ≡ int_of_text text.now }
{
    match text {
        [b'-', digits @ ..] => 0i64.checked_sub_unsigned(number_of(digits)?),
        digits => 0i64.checked_add_unsigned(number_of(digits)?),
    }
}

/// The number that one or more ASCII digits write, below 2^64.
pub(crate) fn number_of(digits: &[u8]) -> Option<u64>
    ensures { result ≡ u64_of_text digits.now }
{
    if digits.is_empty() {
        return None;
    }
    let mut total: u64 = 0;
    let mut rest = digits;
    while let [digit, after @ ..] = rest {
        if !digit.is_ascii_digit() {
            return None;
        }
        total = total
            .checked_mul(10)?
            .checked_add(u64::from(*digit - b'0'))?;
        rest = after;
    }
    Some(total)
}

#[cfg(test)]
mod tests {
    use super::*;

    // The cases of the format's description of whole numbers, the ends of an i64 and the numbers just past them.
    #[test]
    fn takes_a_minus_and_digits_within_an_i64(rt: HostRuntime) {
        for (text, want) in [
            ("0", Some(0)),
            ("-0", Some(0)),
            ("007", Some(7)),
            ("-12", Some(-12)),
            ("000000000000000000000000000001", Some(1)),
            ("9223372036854775807", Some(i64::MAX)),
            ("-9223372036854775808", Some(i64::MIN)),
            ("9223372036854775808", None),
            ("-9223372036854775809", None),
            ("18446744073709551616", None),
            ("99999999999999999999", None),
            ("", None),
            ("-", None),
            ("+1", None),
            (" 1", None),
            ("1 ", None),
            ("--1", None),
            ("1-", None),
            ("1.0", None),
            ("1/", None),
            ("1:", None),
        ] {
            assert_eq!(rt; int_of(text.as_bytes()), want, "at {text}");
        }
        assert_eq!(rt; int_of(&[0xFF]), None);
        assert_eq!(rt; int_of(&[b'1', 0xFF]), None);
    }
}

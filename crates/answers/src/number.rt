// Numbers in decimal. One that is out of range reads as the end of the range, which is past every ceiling too.
use std::str;

// A number of digits alone.
pub fn parse(word: &[u8]) -> Option<u64> {
    if word.is_empty() || !word.iter().all(u8::is_ascii_digit) {
        return None;
    }
    Some(str::from_utf8(word).ok()?.parse().unwrap_or(u64::MAX))
}

// A number that may have a minus sign before the digits.
pub fn parse_signed(word: &[u8]) -> Option<i64> {
    match word.strip_prefix(b"-") {
        Some(digits) => Some(0i64.saturating_sub_unsigned(parse(digits)?)),
        None => Some(0i64.saturating_add_unsigned(parse(word)?)),
    }
}

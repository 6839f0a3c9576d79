ghost use Rattle.std.specs.Prelude.{◌≡◌, ◌≤◌, length};
ghost use Rattle.ras_lines.specs.Numeral.{number_of as number_spelled, has_no_leading_zero as starts_rightly};
ghost use Rattle.ras_lines.specs.Numbers.{digit_count as digits_first};

fn has_no_leading_zero(word: &[u8]) -> bool
    ensures { result ≡ starts_rightly word.now }
{
    match word {
        [] => false,
        [_] => true,
        [first, _, ..] => *first != b'0',
    }
}

/// The number below 2^32 that a word spells, which has no sign and no leading zero.
pub fn number_of(word: &[u8]) -> Option<u32>
    ensures { result ≡ number_spelled word.now }
{
    if !has_no_leading_zero(word) {
        return None;
    }
    let mut n: u64 = 0;
    let mut rest = word;
    while let Some((digit, after)) = rest.split_first() {
        if *digit < 48 || *digit > 57 {
            return None;
        }
        if n >= 4_294_967_296 {
            return None;
        }
        n = 10 * n + u64::from(*digit - 48);
        rest = after;
    }
    if n < 4_294_967_296 {
        Some(n as u32)
    } else {
        None
    }
}

/// How many digits come first.
pub fn digit_count(bytes: &[u8]) -> usize
    ensures value { result ≡ digits_first bytes.now }
    ensures within { result ≤ length bytes.now }
{
    let mut count = 0;
    let mut rest = bytes;
    while let Some((byte, after)) = rest.split_first() {
        if !byte.is_ascii_digit() {
            return count;
        }
        count += 1;
        rest = after;
    }
    count
}

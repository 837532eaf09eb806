#![tactic(auto)]
// Formats of texts (definitions in specs/, laws in proofs/), and readers of digits, words and numbers. Each reads the front of a
// text and is its definition there: the value and the rest of the text, or None.
ghost use Rattle.std.specs.Prelude.{◌≡◌, [], ◌∷◌, ◌+◌, ◌*◌, ◌<◌, ◌≤◌, ◌⊎◌, length, drop, map, MatchOption};
ghost use Rattle.text_format.specs.Format.{digit_of, char_of, hex16, expect, read_word, read_plain, read_decimal, ◌ending◌};
ghost use Rattle.text_format.specs.Table.{end_byte};
ghost use Rattle.text_format.specs.Own.Answers.{as_read};

// The character of a digit, as a byte. Stays: `char::from_digit` would answer an Option of a char.
#[tactic(auto, unfolding(crate::specs::Format::char_of))]
pub fn char_of(d: u8) -> u8
    requires { d < 16 }
    ensures { result ≡ char_of d }
{
    if d < 10 { b'0' + d } else { b'a' - 10 + d }
}

// The digit of a character, if it is one of the base. Stays: `char::to_digit` takes capitals too.
#[tactic(auto, unfolding(crate::specs::Format::digit_of))]
fn digit_of(b: u8, base: u8) -> Option<u8>
    requires { base ≤ 16 }
    ensures { MatchOption result (base ≤ digit_of b) (λ d. (d ≡ digit_of b) × (d < base)) }
{
    let d = match b {
        b'0'..=b'9' => b - b'0',
        b'a'..=b'f' => b - b'a' + 10,
        _ => return None,
    };
    (d < base).then_some(d)
}

// Sixteen hex digits.
#[tactic(auto, using(crate::proofs::Readers::digits_short, crate::proofs::Readers::hex_end))]
fn hex(s: &[u8]) -> Option<(u64, &[u8])>
    ensures { as_read result ≡ hex16.read s.now }
{
    let (digits, rest) = s.split_first_chunk::<16>()?;
    let mut v = 0u64;
    for b in digits {
        v = v * 16 + u64::from(digit_of(*b, 16)?);
    }
    Some((v, rest))
}

// The text w, for the value.
#[tactic(auto, using(crate::proofs::Readers::begins_not, crate::proofs::Readers::begins_so))]
pub fn word<'a, T: Copy>(s: &'a [u8], w: &[u8], value: T) -> Option<(T, &'a [u8])>
    ensures { as_read result ≡ expect w.now value s.now }
{
    Some((value, s.strip_prefix(w)?))
}

// The byte c, for the value.
pub fn byte<T: Copy>(s: &[u8], c: u8, value: T) -> Option<(T, &[u8])>
    ensures { as_read result ≡ expect (c ∷ []) value s.now }
{
    word(s, &[c], value)
}

// The byte behind number i of what stands on a line: a space where another follows, else a newline. Stays: by its number, which says whether it
// is the last.
#[tactic(auto, using(crate::proofs::Ends::end_byte_more, crate::proofs::Ends::end_byte_last))]
pub fn end_of<T>(list: &[T], i: usize) -> u8
    requires { i < length list.now }
    ensures { result ≡ end_byte (drop (i + 1) list.now) }
{
    if i + 1 < list.len() { b' ' } else { b'\n' }
}

// One of the words, for its number, from 1 on.
#[tactic(auto, using(crate::proofs::Readers::words_none, crate::proofs::Readers::words_found, crate::proofs::Readers::words_next))]
pub fn one_of<'a>(s: &'a [u8], words: &[&[u8]]) -> Option<(u64, &'a [u8])>
    ensures { as_read result ≡ read_word 1 (map (λ w. w.now) words.now) s.now }
{
    for (i, w) in words.iter().enumerate() {
        if let Some(read) = word(s, w, i as u64 + 1) {
            return Some(read);
        }
    }
    None
}

// Sixteen hex digits, then the byte c.
#[tactic(auto, using(crate::proofs::Behind::ending_none, crate::proofs::Behind::ending_on))]
pub fn hex_then(s: &[u8], c: u8) -> Option<(u64, &[u8])>
    ensures { as_read result ≡ (hex16 ending (c ∷ [])).read s.now }
{
    let (v, rest) = hex(s)?;
    byte(rest, c, v)
}

// The number n with one digit more, where b is one and the number is at most `most`.
fn with_digit(n: u64, b: u8, most: u64) -> Option<u64>
    ensures { MatchOption result ((10 ≤ digit_of b) ⊎ (most < n * 10 + digit_of b)) (λ m. (digit_of b < 10) × (m ≤ most) × (m ≡ n * 10 + digit_of b)) }
{
    let d = digit_of(b, 10)?;
    let m = n.checked_mul(10)?.checked_add(u64::from(d))?;
    (m <= most).then_some(m)
}

// Digits up to the byte `end`, behind those that made v.
#[tactic(auto, using(crate::proofs::Readers::decimal_none, crate::proofs::Readers::decimal_end, crate::proofs::Readers::decimal_stop, crate::proofs::Readers::decimal_on))]
fn digits_to(s: &[u8], end: u8, most: u64, v: u64) -> Option<(u64, &[u8])>
    ensures { as_read result ≡ read_decimal most end v s.now }
{
    let mut n = v;
    for (i, b) in s.iter().enumerate() {
        if *b == end {
            return Some((n, &s[i + 1..]));
        }
        n = with_digit(n, *b, most)?;
    }
    None
}

// A plain decimal of at most `most`, then the byte `end`. Stays: `parse` takes a sign and leading zeros.
#[tactic(auto, unfolding(crate::specs::Format::read_plain, crate::specs::Format::when))]
pub fn decimal(s: &[u8], end: u8, most: u64) -> Option<(u64, &[u8])>
    ensures { as_read result ≡ read_plain most end s.now }
{
    let (b, rest) = s.split_first()?;
    match digit_of(*b, 10)? {
        0 => byte(rest, end, 0),
        d => digits_to(rest, end, most, u64::from(d)),
    }
}

// de.rs's `parse` for integers, with what INT and LONG do to the line before it. No line is refused beforehand: each gets an answer.
#![tactic(auto)]

ghost use Rattle.std.specs.Prelude.{◌≡◌, [], ◌∷◌, reverse, ◌-◌, ◌<◌, leb, length, take, drop, MatchOption};
ghost use Rattle.refusal.specs.Read.{answered};
ghost use Rattle.number.specs.Space.{space, width, trim_start, trim_end, trimmed};
ghost use Rattle.input.specs.Long.{in_i64, bits64};
ghost use Rattle.number.specs.Number.{turned, only, natural, plus, integer, parse_i64, parse_u32, int_literal, long_literal};
ghost use Rattle.number.specs.Literal.{int_bits, int_read};

use refusal::Refusal;

// What INT's line says: a bool, or an i64 as its 64 bits.
#[derive(Clone, Copy)]
pub enum IntLiteral {
    Bool(bool),
    I64(u64),
}

// White_Space of one byte: U+0009 to U+000D and U+0020.
#[tactic(auto, using(crate::proofs::Space::one_is))]
fn space_one(a: u8) -> bool
    ensures { result ≡ space (a ∷ []) }
{
    matches!(a, 0x09..=0x0D | 0x20)
}

// White_Space of two bytes: U+0085 and U+00A0.
#[tactic(auto, using(crate::proofs::Space::two_is, crate::proofs::Space::two_lead))]
fn space_two(a: u8, b: u8) -> bool
    ensures { result ≡ space (a ∷ b ∷ []) }
{
    matches!((a, b), (0xC2, 0x85 | 0xA0))
}

// U+2000 to U+200A, U+2028, U+2029 and U+202F by their last byte.
#[tactic(auto, using(crate::proofs::Space::general_is))]
fn space_general(c: u8) -> bool
    ensures { result ≡ space (0xE2 ∷ 0x80 ∷ c ∷ []) }
{
    matches!(c, 0x80..=0x8A | 0xA8 | 0xA9 | 0xAF)
}

// White_Space of three bytes: those above, U+205F, U+1680 and U+3000.
#[tactic(auto, using(crate::proofs::Space::three_e2, crate::proofs::Space::three_rest))]
fn space_three(a: u8, b: u8, c: u8) -> bool
    ensures { result ≡ space (a ∷ b ∷ c ∷ []) }
{
    match (a, b) {
        (0xE2, 0x80) => space_general(c),
        (0xE2, 0x81) => c == 0x9F,
        (0xE1, 0x9A) | (0xE3, 0x80) => c == 0x80,
        _ => false,
    }
}

// The text after the White_Space character that it begins with.
fn after_space(text: &[u8]) -> Option<&[u8]>
    ensures { MatchOption result (0 ≡ width (λ p. p) text.now)
        (λ rest. (0 < width (λ p. p) text.now) × (rest.now ≡ drop (width (λ p. p) text.now) text.now)) }
{
    match text {
        [a, rest @ ..] if space_one(*a) => Some(rest),
        [a, b, rest @ ..] if space_two(*a, *b) => Some(rest),
        [a, b, c, rest @ ..] if space_three(*a, *b, *c) => Some(rest),
        _ => None,
    }
}

// The text before the White_Space character that it ends with.
fn before_space(text: &[u8]) -> Option<&[u8]>
    ensures { MatchOption result (0 ≡ width reverse (reverse text.now))
        (λ rest. (0 < width reverse (reverse text.now)) × (rest.now ≡ take (length text.now - width reverse (reverse text.now)) text.now)) }
{
    match text {
        [rest @ .., c] if space_one(*c) => Some(rest),
        [rest @ .., b, c] if space_two(*b, *c) => Some(rest),
        [rest @ .., a, b, c] if space_three(*a, *b, *c) => Some(rest),
        _ => None,
    }
}

fn trim_start(line: &[u8]) -> &[u8]
    ensures { result.now ≡ trim_start line.now }
{
    let mut text = line;
    while let Some(rest) = after_space(text) {
        text = rest;
    }
    text
}

fn trim_end(line: &[u8]) -> &[u8]
    ensures { result.now ≡ trim_end line.now }
{
    let mut text = line;
    while let Some(rest) = before_space(text) {
        text = rest;
    }
    text
}

// The line without the White_Space at both ends.
#[tactic(auto, unfolding(crate::specs::Space::trimmed))]
pub fn trim(line: &[u8]) -> &[u8]
    ensures { result.now ≡ trimmed line.now }
{
    trim_end(trim_start(line))
}

// The number that the digits write, if it is at most `most`. Past that nothing is read: the answer is the same.
fn natural(text: &[u8], most: u64) -> Result<u64, Refusal>
    ensures { answered result ≡ only (λ n. leb n most) (natural text.now) }
{
    if text.is_empty() {
        return Err(Refusal::InvalidLiteral);
    }
    let mut n: u64 = 0;
    for b in text {
        if !b.is_ascii_digit() {
            return Err(Refusal::InvalidLiteral);
        }
        let digit = (*b - b'0') as u64;
        if most / 10 < n || most - n * 10 < digit {
            return Err(Refusal::InvalidLiteral);
        }
        n = n * 10 + digit;
    }
    Ok(n)
}

// The same after an optional `+`.
fn plus(text: &[u8], most: u64) -> Result<u64, Refusal>
    ensures { answered result ≡ only (λ n. leb n most) (plus text.now) }
{
    match text {
        [b, digits @ ..] if *b == b'+' => natural(digits, most),
        _ => natural(text, most),
    }
}

// The i64 that a trimmed text writes, as its 64 bits.
fn integer(text: &[u8]) -> Result<u64, Refusal>
    ensures { answered result ≡ turned bits64 (only in_i64 (integer text.now)) }
{
    match text {
        [b, digits @ ..] if *b == b'-' => {
            let n = natural(digits, 0x8000_0000_0000_0000)?;
            Ok(n.wrapping_neg())
        }
        _ => plus(text, 0x7FFF_FFFF_FFFF_FFFF),
    }
}

// `parse::<i64>`, of any line. Inlined, so that the machine has the refusal itself and not a copy of it (decoder's `long_at`).
#[inline(always)]
fn parse_i64(line: &[u8]) -> Result<u64, Refusal>
    ensures { answered result ≡ turned bits64 (parse_i64 line.now) }
{
    if !utf8::valid(line) {
        return Err(Refusal::InvalidLiteral);
    }
    integer(trim(line))
}

// `parse::<u32>`, of any line: a memo number.
pub fn parse_u32(line: &[u8]) -> Result<u32, Refusal>
    ensures { answered result ≡ parse_u32 line.now }
{
    if !utf8::valid(line) {
        return Err(Refusal::InvalidLiteral);
    }
    Ok(plus(trim(line), 0xFFFF_FFFF)? as u32)
}

// INT's line, which has lost its one CR but is not trimmed yet.
pub fn int(line: &[u8]) -> Result<IntLiteral, Refusal>
    ensures { int_read result ≡ turned int_bits (int_literal line.now) }
{
    if line == b"00".as_slice() {
        return Ok(IntLiteral::Bool(false));
    }
    if line == b"01".as_slice() {
        return Ok(IntLiteral::Bool(true));
    }
    Ok(IntLiteral::I64(parse_i64(line)?))
}

// LONG's line, which may end in an `L`.
pub fn long_text(line: &[u8]) -> Result<u64, Refusal>
    ensures { answered result ≡ turned bits64 (long_literal line.now) }
{
    match line {
        [digits @ .., last] if *last == b'L' => parse_i64(digits),
        _ => parse_i64(line),
    }
}

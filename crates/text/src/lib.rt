// The texts of STRING and UNICODE lines: `unescape_string` and `unescape_unicode` of de.rs. Each is decided and measured by a
// call that changes nothing, and written by another into a lent slice. A line comes without its newline and CR.
#![tactic(auto)]

ghost use Rattle.std.specs.Prelude.{true, false, ◌≡◌, ◌+◌, ◌<◌, ◌≤◌, length, MatchOption, Some, SomeIff};
ghost use Rattle.std.proofs.lemmas.List.Edits.{sets};
ghost use Rattle.refusal.specs.declared.Refusal.TheVariants.{InvalidLiteral};
ghost use Rattle.utf8.specs.Utf8.{encode};
ghost use Rattle.text.specs.Pieces.{texts, length_of, RoomForText, WroteText};
ghost use Rattle.text.specs.Escapes.{hex_digit, hex_number, hex_digits, hex_escape, octal_digit, octal_escape};
ghost use Rattle.text.specs.Escapes.{letters, look, string_escape, string_head, scalar_of, scalar_piece, unicode_escape, unicode_head};
ghost use Rattle.text.specs.Text.{has_quotes, inner, byte_itself, unescape_string, unescape_unicode, string_measured, quoted_says, decoded_says};

use refusal::Refusal;

// What stands at the start of a text: one value, with how many bytes after the first belong to it.
#[derive(Drop)]
pub struct TextPiece {
    pub value: u32,
    pub more: usize,
}

// Where a line that is refused, as an invalid literal, has its fault.
#[derive(Clone, Copy)]
pub struct FaultAt(pub usize);

impl From<FaultAt> for Refusal {
    ghost from_gives = { λ _ why. why ≡ InvalidLiteral };

    fn from(_fault: FaultAt) -> Refusal {
        Refusal::InvalidLiteral
    }
}

// A line of STRING: the value is the part between the quotes, or has so many bytes once unescaped.
#[derive(Drop)]
pub enum Quoted {
    Plain,
    Escaped(usize),
}

// A hex digit's value, in either letter case.
#[tactic(auto, unfolding(crate::specs::Escapes::hex_digit, crate::specs::Escapes::from_to))]
fn hex_digit(c: u8) -> Option<u32>
    ensures { SomeIff result (hex_digit c < 16) (hex_digit c) }
{
    char::from(c).to_digit(16)
}

// `from_str_radix` at 16: hex digits, with a `+` before them or not. Eight of them fit.
#[tactic(auto, unfolding(crate::specs::Escapes::hex_number))]
fn hex_number(digits: &[u8]) -> Option<u32>
    requires { length digits.now ≤ 8 }
    ensures { result ≡ hex_number digits.now }
{
    match digits {
        [b'+', rest @ ..] => hex_digits(rest),
        _ => hex_digits(digits),
    }
}

#[tactic(auto, unfolding(crate::specs::Escapes::hex_digits, crate::specs::Escapes::hex_from))]
fn hex_digits(digits: &[u8]) -> Option<u32>
    requires { length digits.now ≤ 8 }
    ensures { result ≡ hex_digits digits.now }
{
    if digits.is_empty() {
        return None;
    }
    let mut value = 0;
    for &c in digits {
        value = value * 16 + hex_digit(c)?;
    }
    Some(value)
}

// Exactly `n` hex characters, which stand past the escape's letter.
#[tactic(auto, unfolding(crate::specs::Escapes::hex_escape, crate::specs::Escapes::hex_piece))]
fn hex_escape(text: &[u8], n: usize) -> Option<TextPiece>
    requires { n ≤ 8 }
    ensures { result ≡ hex_escape n text.now }
{
    let value = hex_number(text.get(..n)?)?;
    Some(TextPiece { value, more: n + 1 })
}

// The octal digit at the start.
#[tactic(auto, unfolding(crate::specs::Escapes::octal_digit, crate::specs::Escapes::from_to))]
fn octal_digit(text: &[u8]) -> Option<u32>
    ensures { SomeIff result (octal_digit text.now < 8) (octal_digit text.now) }
{
    char::from(*text.first()?).to_digit(8)
}

// One to three octal digits modulo 256.
fn octal_escape(text: &[u8]) -> TextPiece
    ensures { Some result ≡ octal_escape text.now }
{
    let mut value = 0;
    let mut more = 0;
    while more < 3 {
        let Some(d) = octal_digit(&text[more..]) else {
            break;
        };
        value = value * 8 + d;
        more += 1;
    }
    TextPiece {
        value: value % 256,
        more,
    }
}

// The byte that an escape's letter stands for; any other byte stands for itself.
#[tactic(auto, unfolding(crate::specs::Escapes::look))]
fn letter(c: u8) -> u8
    ensures { result ≡ look letters c }
{
    match c {
        b'n' => b'\n',
        b't' => b'\t',
        b'r' => b'\r',
        b'a' => 7,
        b'b' => 8,
        b'f' => 12,
        b'v' => 11,
        _ => c,
    }
}

// STRING: what a backslash starts, before `text`.
#[tactic(auto, unfolding(crate::specs::Escapes::string_escape, crate::specs::Escapes::from_to))]
fn string_escape(text: &[u8]) -> Option<TextPiece>
    ensures { result ≡ string_escape text.now }
{
    match text {
        [] => None, // the escape breaks off
        [b'x', rest @ ..] => hex_escape(rest, 2),
        [b'0'..=b'7', ..] => Some(octal_escape(text)),
        [c, ..] => Some(TextPiece {
            value: letter(*c) as u32,
            more: 1,
        }),
    }
}

// A surrogate or a number above 10FFFF is U+FFFD.
#[tactic(auto, unfolding(crate::specs::Escapes::scalar_of, utf8::specs::Utf8::scalar))]
fn scalar(v: u32) -> u32
    ensures { result ≡ scalar_of v }
{
    match v {
        0..=0xD7FF | 0xE000..=0x10FFFF => v,
        _ => 0xFFFD,
    }
}

// UNICODE: `n` hex characters, as a code point that UTF-8 can write.
#[tactic(auto, unfolding(crate::specs::Escapes::scalar_piece))]
fn unicode_hex(text: &[u8], n: usize) -> Option<TextPiece>
    requires { n ≤ 8 }
    ensures { result ≡ scalar_piece (hex_escape n text.now) }
{
    let TextPiece { value, more } = hex_escape(text, n)?;
    Some(TextPiece {
        value: scalar(value),
        more,
    })
}

// UNICODE: what a backslash starts, before `text`.
#[tactic(auto, unfolding(crate::specs::Escapes::unicode_escape))]
fn unicode_escape(text: &[u8]) -> Option<TextPiece>
    ensures { result ≡ unicode_escape text.now }
{
    match text {
        [b'u', rest @ ..] => unicode_hex(rest, 4),
        [b'U', rest @ ..] => unicode_hex(rest, 8),
        _ => Some(TextPiece { value: 92, more: 0 }),
    }
}

// What stands between the quotes of a STRING line, if its first and its last byte are the same quote.
#[tactic(auto, unfolding(crate::specs::Text::has_quotes, crate::specs::Text::inner))]
fn between_quotes(line: &[u8]) -> Option<&[u8]>
    ensures { MatchOption result (has_quotes line.now ≡ false) (λ text. (has_quotes line.now ≡ true) × (text.now ≡ inner line.now)) }
{
    match line {
        [b'\'', text @ .., b'\''] | [b'"', text @ .., b'"'] => Some(text),
        _ => None,
    }
}

// How many bytes the text between the quotes has once unescaped. A place counts the quote before it.
// Most bytes are plain, and are passed without a call; so in each loop below.
fn inner_len(text: &[u8]) -> Result<usize, FaultAt>
    ensures { decoded_says result ≡ length_of (texts string_head byte_itself 0 1 text.now) }
{
    let mut n = 0;
    let mut i = 0;
    while i < text.len() {
        let b = text[i];
        i += 1;
        if b == b'\\' {
            let Some(piece) = string_escape(&text[i..]) else {
                return Err(FaultAt(i)); // at the backslash, one on for the quote
            };
            i += piece.more;
        }
        n += 1;
    }
    Ok(n)
}

// STRING, decided: an escape is shorter unescaped, so a value as long as its text has none.
pub fn string_len(line: &[u8]) -> Result<Quoted, FaultAt>
    ensures { quoted_says line.now result ≡ string_measured line.now }
{
    let Some(text) = between_quotes(line) else {
        return Err(FaultAt(0));
    };
    let len = inner_len(text)?;
    Ok(if len == text.len() {
        Quoted::Plain
    } else {
        Quoted::Escaped(len)
    })
}

// The text between the quotes, unescaped, at the start of `out`; how many bytes that are.
fn write_inner(text: &[u8], out: &mut [u8]) -> usize
    requires { RoomForText (texts string_head byte_itself 0 1 text.now) out.old }
    ensures { WroteText (texts string_head byte_itself 0 1 text.now) out.old out.new result }
{
    let mut n = 0;
    let mut i = 0;
    while i < text.len() {
        let b = text[i];
        i += 1;
        if b != b'\\' {
            out[n] = b;
        } else {
            let TextPiece { value, more } = string_escape(&text[i..]).unwrap();
            out[n] = value as u8;
            i += more;
        }
        n += 1;
    }
    n
}

// STRING, written: for a line that `string_len` does not refuse.
pub fn unescape_string(line: &[u8], out: &mut [u8]) -> usize
    requires { RoomForText (unescape_string line.now) out.old }
    ensures { WroteText (unescape_string line.now) out.old out.new result }
{
    write_inner(between_quotes(line).unwrap(), out)
}

// UNICODE: what stands at the start, there being something.
#[tactic(auto, unfolding(crate::specs::Escapes::unicode_head))]
fn unicode_piece(text: &[u8]) -> Option<TextPiece>
    ensures { result ≡ unicode_head text.now }
{
    match text {
        [] => None,
        [b'\\', rest @ ..] => unicode_escape(rest),
        [b, ..] => Some(TextPiece {
            value: *b as u32,
            more: 0,
        }),
    }
}

// How many bytes the UTF-8 of a code point has.
#[tactic(auto, unfolding(utf8::specs::Utf8::encode))]
fn encoded_len(code: u32) -> usize
    ensures { result ≡ length (encode code) }
{
    match code {
        0..=0x7F => 1,
        0x80..=0x7FF => 2,
        0x800..=0xFFFF => 3,
        _ => 4,
    }
}

// UNICODE, decided.
pub fn unicode_len(line: &[u8]) -> Result<usize, FaultAt>
    ensures { decoded_says result ≡ length_of (unescape_unicode line.now) }
{
    let mut n = 0;
    let mut i = 0;
    while i < line.len() {
        let b = line[i];
        if b < 0x80 && b != b'\\' {
            n += 1;
            i += 1;
        } else {
            let Some(TextPiece { value, more }) = unicode_piece(&line[i..]) else {
                return Err(FaultAt(i));
            };
            n += encoded_len(value);
            i += more + 1;
        }
    }
    Ok(n)
}

// The UTF-8 of a code point, at `at` of `out`; the place after it.
fn put(out: &mut [u8], at: usize, code: u32) -> usize
    requires { (code < 0x110000) × (at + length (encode code) ≤ length out.old) }
    ensures { (result ≡ at + length (encode code)) × (out.new ≡ sets out.old at (encode code)) }
{
    if code < 0x80 {
        out[at] = code as u8;
        return at + 1;
    }
    if code < 0x800 {
        out[at] = (0xC0 + code / 64) as u8;
        out[at + 1] = (0x80 + code % 64) as u8;
        return at + 2;
    }
    if code < 0x10000 {
        out[at] = (0xE0 + code / 4096) as u8;
        out[at + 1] = (0x80 + code / 64 % 64) as u8;
        out[at + 2] = (0x80 + code % 64) as u8;
        return at + 3;
    }
    out[at] = (0xF0 + code / 262144) as u8;
    out[at + 1] = (0x80 + code / 4096 % 64) as u8;
    out[at + 2] = (0x80 + code / 64 % 64) as u8;
    out[at + 3] = (0x80 + code % 64) as u8;
    at + 4
}

// UNICODE, written: for a line that `unicode_len` does not refuse.
pub fn unescape_unicode(line: &[u8], out: &mut [u8]) -> usize
    requires { RoomForText (unescape_unicode line.now) out.old }
    ensures { WroteText (unescape_unicode line.now) out.old out.new result }
{
    let mut n = 0;
    let mut i = 0;
    while i < line.len() {
        let b = line[i];
        if b < 0x80 && b != b'\\' {
            out[n] = b;
            n += 1;
            i += 1;
        } else {
            let TextPiece { value, more } = unicode_piece(&line[i..]).unwrap();
            n = put(out, n, value);
            i += more + 1;
        }
    }
    n
}

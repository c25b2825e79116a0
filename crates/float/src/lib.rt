// FLOAT: de.rs's `parse::<f64>` of a line, for the literals whose double is one product or quotient of two exact doubles.
// The others are told apart from bad ones, and refused.
#![tactic(auto)]

ghost use Rattle.std.specs.Prelude.{◌≡◌, true, ◌+◌, ◌-◌, ◌*◌, ◌^◌, ◌<◌, ◌≤◌, min, length};
ghost use Rattle.refusal.specs.Read.{answered};
ghost use Rattle.float.specs.Digits.{digit};
ghost use Rattle.float.specs.Form.{minus, behind_sign, power, exponent, number_written, is_word};
ghost use Rattle.float.specs.Scan.{cap, run_of, Scanned, capped};
ghost use Rattle.float.specs.Literal.{double, signed, signed_value, float_literal, parse_f64};
ghost use Rattle.float.specs.Form as Form;

use refusal::Refusal;

// A run of digits: its number, or the cap where it is larger, and how many they are.
#[derive(Drop)]
struct DigitRun {
    value: u64,
    count: usize,
}

// The digits before an exponent: their number, how many they are, how many of them stand after the point, where the text goes on.
#[derive(Drop)]
struct Mantissa {
    w: u64,
    count: usize,
    shift: usize,
    end: usize,
}

// An exponent: 10 ^ n, or 1 / 10 ^ n, n being the number or the cap where it is larger.
#[derive(Drop)]
enum Power {
    Up(u64),
    Down(u64),
}

// Powers of ten that a double holds exactly.
const TENS: [f64; 23] = [
    1.0,
    10.0,
    100.0,
    1000.0,
    10000.0,
    100000.0,
    1000000.0,
    10000000.0,
    100000000.0,
    1000000000.0,
    10000000000.0,
    100000000000.0,
    1000000000000.0,
    10000000000000.0,
    100000000000000.0,
    1000000000000000.0,
    10000000000000000.0,
    100000000000000000.0,
    1000000000000000000.0,
    10000000000000000000.0,
    100000000000000000000.0,
    1000000000000000000000.0,
    10000000000000000000000.0,
];

// One digit more.
fn append(value: u64, b: u8) -> u64
    requires { digit b ≡ true }
    ensures { result ≡ min (value * 10 + (b - 48)) cap }
{
    if value < 1_000_000_000_000_000_000 {
        value * 10 + (b - b'0') as u64
    } else {
        10_000_000_000_000_000_000
    }
}

// The digits that `text` begins with, put after those of `start`.
fn digit_run(text: &[u8], start: u64) -> DigitRun
    requires { start ≤ cap }
    ensures run { result ≡ run_of start text.now }
    ensures within { result.count ≤ length text.now }
{
    let mut value = start;
    for (count, b) in text.iter().enumerate() {
        if !b.is_ascii_digit() {
            return DigitRun { value, count };
        }
        value = append(value, *b);
    }
    DigitRun {
        value,
        count: text.len(),
    }
}

// Whether a text's sign is a minus, and the text after the sign.
fn split_sign(text: &[u8]) -> (bool, &[u8])
    ensures { (result.0 ≡ minus text.now) × (result.1.now ≡ behind_sign text.now) }
{
    match text {
        [b, rest @ ..] if *b == b'-' => (true, rest),
        [b, rest @ ..] if *b == b'+' => (false, rest),
        _ => (false, text),
    }
}

// Letter case does not count.
fn is_named(text: &[u8]) -> bool
    ensures { result ≡ is_word text.now }
{
    text.eq_ignore_ascii_case(b"inf")
        || text.eq_ignore_ascii_case(b"infinity")
        || text.eq_ignore_ascii_case(b"nan")
}

fn mantissa_of(text: &[u8]) -> Mantissa
    ensures { Scanned text.now result }
{
    let whole = digit_run(text, 0);
    let at = whole.count;
    let left = &text[at..];
    match left {
        [b, rest @ ..] if *b == b'.' => {
            let part = digit_run(rest, whole.value);
            Mantissa {
                w: part.value,
                count: at + part.count,
                shift: part.count,
                end: at + 1 + part.count,
            }
        }
        _ => Mantissa {
            w: whole.value,
            count: at,
            shift: 0,
            end: at,
        },
    }
}

// An exponent's digits, up to the end.
fn power_of(negative: bool, text: &[u8]) -> Option<Power>
    ensures { result ≡ capped (power negative text.now) }
{
    let run = digit_run(text, 0);
    if run.count == 0 || run.count < text.len() {
        return None;
    }
    if negative {
        Some(Power::Down(run.value))
    } else {
        Some(Power::Up(run.value))
    }
}

// 10 ^ 0 where there is none.
fn exponent_of(text: &[u8]) -> Option<Power>
    ensures { result ≡ capped (exponent text.now) }
{
    match text {
        [] => Some(Power::Up(0)),
        [b, rest @ ..] if *b == b'e' || *b == b'E' => {
            let (negative, digits) = split_sign(rest);
            power_of(negative, digits)
        }
        _ => None,
    }
}

// w * 10 ^ e, rounded once.
fn multiplied(w: u64, e: usize) -> u64
    requires { (0 < w) × (w ≤ 2 ^ 53) × (e ≤ 22) }
    ensures { result ≡ double (w * 10 ^ e) 1 }
{
    f64::to_bits((w as f64) * TENS[e])
}

// w / 10 ^ e, rounded once.
fn divided(w: u64, e: usize) -> u64
    requires { (0 < w) × (w ≤ 2 ^ 53) × (e ≤ 22) }
    ensures { result ≡ double w (10 ^ e) }
{
    f64::to_bits((w as f64) / TENS[e])
}

#[tactic(auto, unfolding(crate::specs::Literal::signed))]
fn with_sign(negative: bool, bits: u64) -> u64
    requires { bits < 2 ^ 63 }
    ensures { result ≡ signed negative bits }
{
    if negative {
        bits + 0x8000_0000_0000_0000
    } else {
        bits
    }
}

// w * 10 ^ up / 10 ^ down
fn settled(negative: bool, w: u64, up: u64, down: u64) -> Result<u64, Refusal>
    ensures { answered result ≡ signed_value negative (Form.number w up down) }
{
    if w == 0 {
        return Ok(with_sign(negative, 0));
    }
    if 9_007_199_254_740_992 < w {
        return Err(Refusal::FloatOutside);
    }
    if up < down {
        let lower = down - up;
        if 22 < lower {
            return Err(Refusal::FloatOutside);
        }
        return Ok(with_sign(negative, divided(w, lower as usize)));
    }
    let raise = up - down;
    if 22 < raise {
        return Err(Refusal::FloatOutside);
    }
    Ok(with_sign(negative, multiplied(w, raise as usize)))
}

// The text after its sign.
fn number_of(negative: bool, text: &[u8]) -> Result<u64, Refusal>
    ensures { answered result ≡ signed_value negative (number_written text.now) }
{
    let m = mantissa_of(text);
    if m.count == 0 {
        return Err(Refusal::InvalidLiteral);
    }
    let shift = m.shift as u64;
    match exponent_of(&text[m.end..]) {
        None => Err(Refusal::InvalidLiteral),
        Some(Power::Up(up)) => settled(negative, m.w, up, shift),
        // The sum could wrap only where it does not count.
        Some(Power::Down(down)) if 22 < down => settled(negative, m.w, 0, down),
        Some(Power::Down(down)) => settled(negative, m.w, 0, down + shift),
    }
}

// The text of a line, its white space trimmed. `inf`, `infinity`, `nan` and a number past the bounds of RULES A7.5 are FloatOutside.
fn float_text(text: &[u8]) -> Result<u64, Refusal>
    ensures { answered result ≡ float_literal text.now }
{
    let (negative, rest) = split_sign(text);
    if is_named(rest) {
        return Err(Refusal::FloatOutside);
    }
    number_of(negative, rest)
}

// `parse::<f64>`, of any line.
#[tactic(auto, unfolding(crate::specs::Literal::parse_f64))]
pub fn parse_f64(line: &[u8]) -> Result<u64, Refusal>
    ensures { answered result ≡ parse_f64 line.now }
{
    if !utf8::valid(line) {
        return Err(Refusal::InvalidLiteral);
    }
    float_text(number::trim(line))
}

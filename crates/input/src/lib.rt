// The reading methods of de.rs's `Decoder`, over the pickle's slice and a place in it: `array` at each fixed width, `line`, `long`.
#![tactic(auto)]

ghost use Rattle.std.specs.Prelude.{◌≡◌, ◌≤◌, ◌<◌, ◌+◌, ◌^◌, length, get_or, take, drop};
ghost use Rattle.input.specs.Bytes.{low_first, high_first, padded_to};
ghost use Rattle.input.specs.Line.{newline_of, line_of};
ghost use Rattle.input.specs.Long.{long_of, denotes, bits64};
ghost use Rattle.input.specs.Rule01.{fill_of, all_are};
ghost use Rattle.refusal.specs.Read.{answered};

use refusal::Refusal;

// The number of the first `width` bytes, low byte first, with `fill` for those that are missing.
fn low_first(bytes: &[u8], width: usize, fill: u8) -> u64
    requires { width ≤ 8 }
    ensures { (result ≡ low_first (padded_to width fill bytes.now)) × (result < 256 ^ width) }
{
    let mut value: u64 = 0;
    for i in (0..width).rev() {
        let b = bytes.get(i).copied().unwrap_or(fill);
        value = value * 256 + b as u64;
    }
    value
}

// The number of the `width` bytes at `at`, low byte first.
pub fn low_at(pickle: &[u8], at: usize, width: usize) -> u64
    requires { (at + width ≤ length pickle.now) × (width ≤ 8) }
    ensures { (result ≡ low_first (take width (drop at pickle.now))) × (result < 256 ^ width) }
{
    let end = at + width;
    low_first(&pickle[at..end], width, 0)
}

pub fn u16_at(pickle: &[u8], at: usize) -> u16
    requires { at + 2 ≤ length pickle.now }
    ensures { result ≡ low_first (take 2 (drop at pickle.now)) }
{
    u16::from_le_bytes(*pickle[at..].first_chunk().unwrap())
}

pub fn u32_at(pickle: &[u8], at: usize) -> u32
    requires { at + 4 ≤ length pickle.now }
    ensures { result ≡ low_first (take 4 (drop at pickle.now)) }
{
    u32::from_le_bytes(*pickle[at..].first_chunk().unwrap())
}

// The byte that repeats the sign of the last one.
#[tactic(auto, unfolding(crate::specs::Bytes::last_byte, crate::specs::Rule01::fill_of))]
fn fill_of(bytes: &[u8]) -> u8
    ensures { result ≡ fill_of bytes.now }
{
    match bytes.last() {
        Some(last) if 128 <= *last => 0xFF,
        _ => 0,
    }
}

// As the 64 bits of the i64 that it is.
pub fn i32_at(pickle: &[u8], at: usize) -> u64
    requires { at + 4 ≤ length pickle.now }
    ensures { result ≡ bits64 (denotes (take 4 (drop at pickle.now))) }
{
    let end = at + 4;
    let bytes = &pickle[at..end];
    low_first(bytes, 8, fill_of(bytes))
}

// As its 64 bits.
pub fn f64_at(pickle: &[u8], at: usize) -> u64
    requires { at + 8 ≤ length pickle.now }
    ensures { result ≡ high_first (take 8 (drop at pickle.now)) }
{
    u64::from_be_bytes(*pickle[at..].first_chunk().unwrap())
}

// The place of the first newline at or after `from`, or the end of the input.
pub fn newline(pickle: &[u8], from: usize) -> Result<usize, Refusal>
    ensures { answered result ≡ newline_of pickle.now from }
{
    let mut i = from;
    let at = loop {
        if pickle.len() <= i {
            return Err(Refusal::EndOfInput);
        }
        if pickle[i] == b'\n' {
            break i;
        }
        i += 1;
    };
    Ok(at)
}

// The line from `from` to the newline at `at`, less one CR, as a part of the pickle.
#[tactic(auto, unfolding(crate::specs::Bytes::last_byte, crate::specs::Line::less_cr, crate::specs::Line::line_of))]
pub fn line(pickle: &[u8], from: usize, at: usize) -> &[u8]
    requires { (from ≤ at) × (at < length pickle.now) }
    ensures { result.now ≡ line_of pickle.now from at }
{
    let line = &pickle[from..at];
    // Text protocol pickles written on Windows.
    match line {
        [text @ .., last] if *last == b'\r' => text,
        _ => line,
    }
}

// Whether every byte from `from` on is `fill`.
fn repeats(bytes: &[u8], from: usize, fill: u8) -> bool
    ensures { result ≡ all_are fill (drop from bytes.now) }
{
    bytes.len() <= from || bytes[from..].iter().all(|b| *b == fill)
}

// A two's complement integer, low byte first, of any length.
pub fn long(bytes: &[u8]) -> Result<u64, Refusal>
    ensures { answered result ≡ long_of bytes.now }
{
    let fill = fill_of(bytes);
    if !repeats(bytes, 8, fill) {
        return Err(Refusal::IntegerTooLarge);
    }
    let value = low_first(bytes, 8, fill);
    if (value < 0x8000_0000_0000_0000) == (fill == 0) {
        Ok(value)
    } else {
        Err(Refusal::IntegerTooLarge)
    }
}

// UTF-8 as chapter 3 of the Unicode standard has it: whether bytes are well formed (Rust's `str::from_utf8`), and their repair
// (`String::from_utf8_lossy`) with its length known before. One function decides the piece at a place, and the three go by it.
#![tactic(auto)]

ghost use Rattle.std.specs.Prelude.{true, ◌≡◌, ◌+◌, ◌≤◌, ◌<◌, length, take, drop};
ghost use Rattle.std.proofs.lemmas.List.Edits.{sets};
ghost use Rattle.utf8.specs.Utf8.{fffd, valid as valid_text, repair};
ghost use Rattle.utf8.specs.Place.{Ascii, piece_of, second_of, next_in};

// A well-formed sequence, or a maximal subpart of an ill-formed one, by its length.
#[derive(Drop)]
enum Piece {
    Whole(usize),
    Part(usize),
}

// The least and the greatest of a range of bytes.
#[derive(Drop)]
struct ByteRange(u8, u8);

// Where the second byte lies after a first byte that asks for one.
fn second(b: u8) -> ByteRange
    ensures { (result.0, result.1) ≡ second_of b }
{
    match b {
        0xE0 => ByteRange(0xA0, 0xBF),
        0xED => ByteRange(0x80, 0x9F),
        0xF0 => ByteRange(0x90, 0xBF),
        0xF4 => ByteRange(0x80, 0x8F),
        _ => ByteRange(0x80, 0xBF),
    }
}

// Whether there is a byte at `at`, in the range.
fn has(s: &[u8], at: usize, range: ByteRange) -> bool
    ensures { result ≡ next_in (range.0, range.1) (drop at s.now) }
{
    if s.len() <= at {
        return false;
    }
    let c = s[at];
    range.0 <= c && c <= range.1
}

// The piece at `at`: Table 3-7, column by column.
fn piece_at(s: &[u8], at: usize) -> Piece
    requires { at < length s.now }
    ensures { result ≡ piece_of (drop at s.now) }
{
    let b = s[at];
    if b < 0x80 {
        return Piece::Whole(1);
    }
    if b < 0xC2 {
        return Piece::Part(1);
    }
    if 0xF4 < b {
        return Piece::Part(1);
    }
    if !has(s, at + 1, second(b)) {
        return Piece::Part(1);
    }
    if b < 0xE0 {
        return Piece::Whole(2);
    }
    if !has(s, at + 2, ByteRange(0x80, 0xBF)) {
        return Piece::Part(2);
    }
    if b < 0xF0 {
        return Piece::Whole(3);
    }
    if !has(s, at + 3, ByteRange(0x80, 0xBF)) {
        return Piece::Part(3);
    }
    Piece::Whole(4)
}

// Eight bytes are ASCII: tested together, which is quicker than one by one.
fn is_ascii(s: &[u8], i: usize) -> bool
    requires { i + 8 ≤ length s.now }
    ensures { result ≡ true → Ascii s.now i 8 }
{
    (s[i] < 0x80)
        & (s[i + 1] < 0x80)
        & (s[i + 2] < 0x80)
        & (s[i + 3] < 0x80)
        & (s[i + 4] < 0x80)
        & (s[i + 5] < 0x80)
        & (s[i + 6] < 0x80)
        & (s[i + 7] < 0x80)
}

// How far the text is surely ASCII, by 32 bytes at a time.
fn ascii_far(s: &[u8]) -> usize
    ensures { (result ≤ length s.now) × Ascii s.now 0 result }
{
    let mut i = 0;
    while 32 <= s.len() - i {
        if !(is_ascii(s, i) & is_ascii(s, i + 8) & is_ascii(s, i + 16) & is_ascii(s, i + 24)) {
            return i;
        }
        i += 32;
    }
    i
}

// And from there on by eight.
fn ascii_len(s: &[u8]) -> usize
    ensures { (result ≤ length s.now) × Ascii s.now 0 result }
{
    let mut i = ascii_far(s);
    while 8 <= s.len() - i {
        if !is_ascii(s, i) {
            return i;
        }
        i += 8;
    }
    i
}

// Whether the text is well formed.
pub fn valid(s: &[u8]) -> bool
    ensures { result ≡ valid_text s.now }
{
    let mut i = ascii_len(s);
    while i < s.len() {
        if s[i] < 0x80 {
            i += 1;
        } else {
            let p = piece_at(s, i);
            match p {
                Piece::Whole(len) => i += len,
                Piece::Part(_) => return false,
            }
        }
    }
    true
}

// How long the repaired text is.
pub fn repaired_len(s: &[u8]) -> usize
    requires { length s.now ≤ 65536 }
    ensures { result ≡ length (repair s.now) }
{
    let mut i = 0;
    let mut n = 0;
    while i < s.len() {
        if s[i] < 0x80 {
            i += 1;
            n += 1;
        } else {
            let p = piece_at(s, i);
            match p {
                Piece::Whole(len) => {
                    i += len;
                    n += len;
                }
                Piece::Part(len) => {
                    i += len;
                    n += 3;
                }
            }
        }
    }
    n
}

// Copies `len` bytes of `s` from `i` on to `out` from `n` on.
fn copy(s: &[u8], i: usize, len: usize, out: &mut [u8], n: usize)
    requires { (i + len ≤ length s.now) × (n + len ≤ length out.old) }
    ensures { out.new ≡ sets out.old n (take len (drop i s.now)) }
{
    let mut k = 0;
    while k < len {
        out[n + k] = s[i + k];
        k += 1;
    }
}

// U+FFFD, to `out` from `n` on.
fn replace(out: &mut [u8], n: usize)
    requires { n + 3 ≤ length out.old }
    ensures { out.new ≡ sets out.old n fffd }
{
    out[n] = 0xEF;
    out[n + 1] = 0xBF;
    out[n + 2] = 0xBD;
}

// The repaired text at the start of `out`, and its length.
pub fn from_utf8_lossy(s: &[u8], out: &mut [u8]) -> usize
    requires { length (repair s.now) ≤ length out.old }
    ensures { (result ≡ length (repair s.now)) × (out.new ≡ sets out.old 0 (repair s.now)) }
{
    let mut i = 0;
    let mut n = 0;
    while i < s.len() {
        let b = s[i];
        if b < 0x80 {
            out[n] = b;
            i += 1;
            n += 1;
        } else {
            let p = piece_at(s, i);
            match p {
                Piece::Whole(len) => {
                    copy(s, i, len, out, n);
                    i += len;
                    n += len;
                }
                Piece::Part(len) => {
                    replace(out, n);
                    i += len;
                    n += 3;
                }
            }
        }
    }
    n
}

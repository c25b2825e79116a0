// For tests only: reads a pickle that is one literal and STOP, by the leaves alone, and answers in numbers and a lent slice, so
// that a program or another language can hold each leaf against the Rust.
#![tactic(auto)]

ghost use Rattle.std.specs.Prelude.{◌+◌, ◌≤◌, length, IfOk};

use number::IntLiteral;
use refusal::{Refusal, Wanted};
use text::{FaultAt, Quoted};

#[repr(C)]
#[derive(Drop)]
pub struct Literal {
    pub number: u64,
    pub detail: u64,
    // how many bytes of the pickle were read
    pub length: u64,
    // as in the value table
    pub kind: u64,
    // the bits of a Bool, an I64 or an F64; the length of a Global's module
    pub word: u64,
    // how many bytes of text stand in the room
    pub text: u64,
    // the fault's place in its line
    pub place: u64,
}

// Why a literal is refused, and where in its line.
#[derive(Clone, Copy)]
struct Fault {
    why: Refusal,
    place: usize,
}

impl From<Refusal> for Fault {
    fn from(why: Refusal) -> Fault {
        Fault { why, place: 0 }
    }
}

impl From<FaultAt> for Fault {
    fn from(fault: FaultAt) -> Fault {
        Fault {
            why: Refusal::from(fault),
            place: fault.0,
        }
    }
}

fn refused(fault: Fault) -> Literal {
    Literal {
        number: refusal::number(fault.why),
        detail: refusal::detail(fault.why),
        length: 0,
        kind: 0,
        word: 0,
        text: 0,
        place: fault.place as u64,
    }
}

fn read(kind: u64, word: u64, text: usize, next: usize) -> Literal {
    Literal {
        number: 0,
        detail: 0,
        length: next as u64,
        kind,
        word,
        text: text as u64,
        place: 0,
    }
}

// The line at `from`, and the place behind it.
fn line_at(pickle: &[u8], from: usize) -> Result<(&[u8], usize), Refusal> {
    let end = input::newline(pickle, from)?;
    Ok((input::line(pickle, from, end), end + 1))
}

fn int(line: &[u8], next: usize) -> Result<Literal, Fault> {
    Ok(match number::int(line)? {
        IntLiteral::Bool(b) => read(value::KIND_BOOL, b as u64, 0, next),
        IntLiteral::I64(bits) => read(value::KIND_I64, bits, 0, next),
    })
}

// As many bytes of `from` as fit, at the start of the room.
fn copy(from: &[u8], room: &mut [u8]) -> usize {
    for (to, byte) in room.iter_mut().zip(from) {
        *to = *byte;
    }
    from.len().min(room.len())
}

fn string(line: &[u8], next: usize, room: &mut [u8]) -> Result<Literal, Fault> {
    let n = match text::string_len(line)? {
        Quoted::Plain => copy(&line[1..line.len() - 1], room),
        Quoted::Escaped(len) => {
            if room.len() < len {
                return Err(Fault::from(Refusal::TextFull));
            }
            text::unescape_string(line, room)
        }
    };
    Ok(read(value::KIND_BYTES, 0, n, next))
}

fn unicode(line: &[u8], next: usize, room: &mut [u8]) -> Result<Literal, Fault> {
    if room.len() < text::unicode_len(line)? {
        return Err(Fault::from(Refusal::TextFull));
    }
    let n = text::unescape_unicode(line, room);
    Ok(read(value::KIND_STRING, 0, n, next))
}

// Bytes repaired, at the start of the room; how many they are.
fn repaired(bytes: &[u8], room: &mut [u8]) -> Result<usize, Refusal>
    ensures { IfOk result (λ n. n ≤ length room.new) }
{
    if 65536 < bytes.len() {
        return Err(Refusal::TooLong);
    }
    if room.len() < utf8::repaired_len(bytes) {
        return Err(Refusal::TextFull);
    }
    Ok(utf8::from_utf8_lossy(bytes, room))
}

// A literal that is a line, from the byte after its opcode. PUT stands on an empty stack, and GET on an empty memo.
fn of_line(pickle: &[u8], code: u8, room: &mut [u8]) -> Result<Literal, Fault> {
    let (line, next) = line_at(pickle, 1)?;
    match code {
        op::INT => int(line, next),
        op::LONG => Ok(read(value::KIND_I64, number::long_text(line)?, 0, next)),
        op::FLOAT => Ok(read(value::KIND_F64, float::parse_f64(line)?, 0, next)),
        op::STRING => string(line, next, room),
        op::UNICODE => unicode(line, next, room),
        op::PUT => {
            number::parse_u32(line)?;
            Err(Fault::from(Refusal::StackUnderflow))
        }
        _ => Err(Fault::from(Refusal::MissingMemo(number::parse_u32(line)?))),
    }
}

fn of_bytes(code: u8, bytes: &[u8], next: usize, room: &mut [u8]) -> Result<Literal, Fault> {
    Ok(match code {
        op::LONG1 | op::LONG4 => read(value::KIND_I64, input::long(bytes)?, 0, next),
        op::BINUNICODE => read(value::KIND_STRING, 0, repaired(bytes, room)?, next),
        _ => read(value::KIND_BYTES, 0, copy(bytes, room), next),
    })
}

// A literal that is a length of `width` bytes and so many bytes.
fn of_length(
    pickle: &[u8],
    code: u8,
    width: usize,
    len: usize,
    room: &mut [u8],
) -> Result<Literal, Fault>
    requires { (width ≤ 4) × (width + 1 ≤ length pickle.now) }
{
    let from = width + 1;
    let bytes = pickle[from..].get(..len).ok_or(Refusal::EndOfInput)?;
    of_bytes(code, bytes, from + len, room)
}

// Lengths of one byte.
fn of_short(pickle: &[u8], code: u8, room: &mut [u8]) -> Result<Literal, Fault> {
    let len = *pickle.get(1).ok_or(Refusal::EndOfInput)?;
    of_length(pickle, code, 1, len as usize, room)
}

// Lengths of four bytes; BINSTRING's may not be negative.
fn of_wide(pickle: &[u8], code: u8, room: &mut [u8]) -> Result<Literal, Fault> {
    if pickle.len() < 5 {
        return Err(Fault::from(Refusal::EndOfInput));
    }
    let len = input::u32_at(pickle, 1) as usize;
    if code == op::BINSTRING && 0x7FFF_FFFF < len {
        return Err(Fault::from(Refusal::Invalid(Wanted::Length)));
    }
    of_length(pickle, code, 4, len, room)
}

// A number of so many bytes as its opcode says.
fn of_number(pickle: &[u8], code: u8) -> Result<Literal, Fault> {
    let left = pickle.len();
    match code {
        op::BININT1 if 2 <= left => Ok(read(value::KIND_I64, pickle[1] as u64, 0, 2)),
        op::BININT2 if 3 <= left => Ok(read(
            value::KIND_I64,
            input::u16_at(pickle, 1) as u64,
            0,
            3,
        )),
        op::BININT if 5 <= left => Ok(read(value::KIND_I64, input::i32_at(pickle, 1), 0, 5)),
        op::BINFLOAT if 9 <= left => Ok(read(value::KIND_F64, input::f64_at(pickle, 1), 0, 9)),
        _ => Err(Fault::from(Refusal::EndOfInput)),
    }
}

// GLOBAL: two lines, each repaired; the room holds the module and then the name.
fn global(pickle: &[u8], room: &mut [u8]) -> Result<Literal, Fault> {
    let (module, from) = line_at(pickle, 1)?;
    let (name, next) = line_at(pickle, from)?;
    let m = repaired(module, room)?;
    let n = repaired(name, &mut room[m..])?;
    Ok(read(value::KIND_GLOBAL, m as u64, m + n, next))
}

fn first(pickle: &[u8], room: &mut [u8]) -> Result<Literal, Fault> {
    let code = *pickle.first().ok_or(Refusal::EndOfInput)?;
    match code {
        op::INT | op::LONG | op::FLOAT | op::STRING | op::UNICODE | op::PUT | op::GET => of_line(
            pickle, code, room,
        ),
        op::LONG1 | op::SHORT_BINSTRING => of_short(pickle, code, room),
        op::LONG4 | op::BINSTRING | op::BINUNICODE => of_wide(pickle, code, room),
        op::BININT | op::BININT1 | op::BININT2 | op::BINFLOAT => of_number(pickle, code),
        op::GLOBAL => global(pickle, room),
        _ => Err(Fault::from(Refusal::UnsupportedOpcode(code))),
    }
}

// The literal at the start of a pickle, and STOP.
fn whole(pickle: &[u8], room: &mut [u8]) -> Result<Literal, Fault> {
    let found = first(pickle, room)?;
    match pickle.get(found.length as usize) {
        Some(&op::STOP) => Ok(Literal {
            length: found.length + 1,
            ..found
        }),
        Some(&code) => Err(Fault::from(Refusal::UnsupportedOpcode(code))),
        None => Err(Fault::from(Refusal::EndOfInput)),
    }
}

#[unsafe(no_mangle)]
pub extern "C" fn probe_literal(pickle: &[u8], room: &mut [u8]) -> Literal {
    match whole(pickle, room) {
        Ok(found) => found,
        Err(fault) => refused(fault),
    }
}

// The opcodes of de.rs's `Decoder`, each as a function of its own: it reads the pickle and the rooms, changes nothing, and answers the
// effect that its step has. specs/ has what each answers; steps has the state and the opcodes' definitions, store what the rooms and an effect mean.
#![tactic(auto)]

ghost use Rattle.std.specs.Prelude.{true, List, ◌≡◌, ℕ, ◌+◌, ◌-◌, ◌*◌, ◌^◌, ◌/◌, ◌<◌, ◌≤◌, length, get_or, MatchResult, Ok};
ghost use Rattle.steps.specs.State.{get, put};
ghost use Rattle.steps.specs.Opcodes.{proto, pop_one, pop_to_mark, dup, int, binint, long, long_n, float, binfloat, string, binstring, short_binstring, unicode, binunicode, global, list, tuple, tuple_n, dict, append, appends, setitem, setitems, low_bytes, reduce, newobj, build_state};
ghost use Rattle.steps.specs.Run.{going};
ghost use Rattle.store.specs.Effects.{SomeRooms, Decides};
ghost use Rattle.decoder.specs.ReadsPickle.{LineTo, NoLine, ReadsPart, prefixed, unsigned, ReadsLong};
ghost use Rattle.decoder.specs.Items.{TakesMark, GrowingKind, Adds, gathered};
ghost use Rattle.steps.specs.NodeWords.{first, second, module_of, name_of, HoldsLinks};
ghost use Rattle.decoder.specs.ReadsMemo.{key_line, key_by, get_by, put_by, ReadsKey};
ghost use Rattle.decoder.specs.ReadsCalls.{CallOnTop, ReadsCall, made_kind};

use float::parse_f64;
use input::{f64_at, i32_at, line, low_at, newline};
use number::{IntLiteral, parse_u32};
use refusal::{Refusal, Wanted};
use store::{Counts, Effect, MemoKey, NodeId, kind, slot};
use text::{Quoted, string_len, unicode_len};

// ---- values that stand in the pickle

// The second word of a text: its length above its place.
fn text_word(at: usize, len: usize) -> u64
    requires { (at < 2 ^ 32) × (len < 2 ^ 32) }
    ensures { result ≡ len * 2 ^ 32 + at }
{
    len as u64 * store::HALF + at as u64
}

// A length of `width` bytes, and so many bytes: their place and how many they are.
fn prefixed(pickle: &[u8], at: usize, width: usize) -> Result<(usize, usize), Refusal>
    requires { (at ≤ length pickle.now) × (width ≤ 8) }
    ensures { ReadsPart at pickle.now (prefixed width) result }
{
    if pickle.len() - at < width {
        return Err(Refusal::EndOfInput);
    }
    let len = low_at(pickle, at, width) as usize;
    if pickle.len() - at - width < len {
        return Err(Refusal::EndOfInput);
    }
    Ok((at + width, len))
}

// The line at a place, less its newline and CR, and the place behind it.
fn line_at(pickle: &[u8], at: usize) -> Result<(&[u8], usize), Refusal>
    ensures { MatchResult result (λ x. LineTo pickle.now at x.0.now x.1) (λ why. NoLine pickle.now at why) }
{
    let end = newline(pickle, at)?;
    Ok((line(pickle, at, end), end + 1))
}

// PROTO: a protocol up to the highest that is accepted.
pub fn proto(pickle: &[u8], c: Counts, highest: u8) -> Result<Effect, Refusal>
    requires { SomeRooms c (λ r. r.pickle ≡ pickle.now) }
    ensures { Decides c (λ r. r.pickle ≡ pickle.now) (λ s. going (proto highest s)) result }
{
    if pickle.len() - c.at < 1 {
        return Err(Refusal::EndOfInput);
    }
    let p = pickle[c.at];
    if highest < p {
        return Err(Refusal::UnsupportedProtocol(p));
    }
    Ok(Effect::Go(Counts { at: c.at + 1, ..c }))
}

// INT: `00` and `01` are Bools.
pub fn int(pickle: &[u8], c: Counts) -> Result<Effect, Refusal>
    requires { SomeRooms c (λ r. r.pickle ≡ pickle.now) }
    ensures { Decides c (λ r. r.pickle ≡ pickle.now) (λ s. going (int s)) result }
{
    let (line, at) = line_at(pickle, c.at)?;
    let behind = Counts { at, ..c };
    Ok(match number::int(line)? {
        IntLiteral::Bool(b) => Effect::Push(behind, value::KIND_BOOL, b as u64),
        IntLiteral::I64(v) => Effect::Push(behind, value::KIND_I64, v),
    })
}

// BININT: four bytes with a sign.
pub fn binint(pickle: &[u8], c: Counts) -> Result<Effect, Refusal>
    requires { SomeRooms c (λ r. r.pickle ≡ pickle.now) }
    ensures { Decides c (λ r. r.pickle ≡ pickle.now) (λ s. going (binint s)) result }
{
    if pickle.len() - c.at < 4 {
        return Err(Refusal::EndOfInput);
    }
    let behind = Counts { at: c.at + 4, ..c };
    Ok(Effect::Push(behind, value::KIND_I64, i32_at(pickle, c.at)))
}

// BININT1, BININT2: `width` bytes without a sign.
pub fn unsigned(pickle: &[u8], c: Counts, width: usize) -> Result<Effect, Refusal>
    requires { SomeRooms c (λ r. r.pickle ≡ pickle.now) × (width ≤ 8) }
    ensures { Decides c (λ r. r.pickle ≡ pickle.now) (λ s. going (unsigned width s)) result }
{
    if pickle.len() - c.at < width {
        return Err(Refusal::EndOfInput);
    }
    let behind = Counts {
        at: c.at + width,
        ..c
    };
    Ok(Effect::Push(behind, value::KIND_I64, low_at(pickle, c.at, width)))
}

// LONG: a line with or without an `L`.
pub fn long(pickle: &[u8], c: Counts) -> Result<Effect, Refusal>
    requires { SomeRooms c (λ r. r.pickle ≡ pickle.now) }
    ensures { Decides c (λ r. r.pickle ≡ pickle.now) (λ s. going (long s)) result }
{
    let (line, at) = line_at(pickle, c.at)?;
    let v = number::long_text(line)?;
    Ok(Effect::Push(Counts { at, ..c }, value::KIND_I64, v))
}

// The place behind the integer of a LONG1 or LONG4, and the integer. Bytes that are missing come before an integer that is too large. Inlined:
// a refusal that comes out of a call is copied as a whole word over an effect's tag, and then no arm of `decide` goes straight to its effect.
#[inline(always)]
pub fn long_at(pickle: &[u8], at: usize, width: usize) -> Result<(usize, u64), Refusal>
    requires { (at ≤ length pickle.now) × (width ≤ 8) }
    ensures { ReadsLong width at pickle.now result }
{
    let (from, len) = prefixed(pickle, at, width)?;
    let end = from + len;
    Ok((end, input::long(&pickle[from..end])?))
}

// LONG1, LONG4: what was read at the counts' place. Inlined, since a call would be handed the counts.
#[inline(always)]
pub fn long_n(c: Counts, read: Result<(usize, u64), Refusal>) -> Result<Effect, Refusal>
    ensures { (n : ℕ) (p : List ℕ) → ReadsLong n c.at p read
        → Decides c (λ r. r.pickle ≡ p) (λ s. going (long_n n s)) result }
{
    let (at, v) = read?;
    Ok(Effect::Push(Counts { at, ..c }, value::KIND_I64, v))
}

// FLOAT: a line; what is outside the numbers that are read has a refusal of its own.
pub fn float(pickle: &[u8], c: Counts) -> Result<Effect, Refusal>
    requires { SomeRooms c (λ r. r.pickle ≡ pickle.now) }
    ensures { Decides c (λ r. r.pickle ≡ pickle.now) (λ s. going (float s)) result }
{
    let (line, at) = line_at(pickle, c.at)?;
    let v = parse_f64(line)?;
    Ok(Effect::Push(Counts { at, ..c }, value::KIND_F64, v))
}

// BINFLOAT: eight bytes, high byte first.
pub fn binfloat(pickle: &[u8], c: Counts) -> Result<Effect, Refusal>
    requires { SomeRooms c (λ r. r.pickle ≡ pickle.now) }
    ensures { Decides c (λ r. r.pickle ≡ pickle.now) (λ s. going (binfloat s)) result }
{
    if pickle.len() - c.at < 8 {
        return Err(Refusal::EndOfInput);
    }
    let behind = Counts { at: c.at + 8, ..c };
    Ok(Effect::Push(behind, value::KIND_F64, f64_at(pickle, c.at)))
}

// STRING: a value without an escape is a part of the pickle; any other keeps its line, and is unescaped when it is built.
pub fn string(pickle: &[u8], c: Counts) -> Result<Effect, Refusal>
    requires { SomeRooms c (λ r. r.pickle ≡ pickle.now) }
    ensures { Decides c (λ r. r.pickle ≡ pickle.now) (λ s. going (string s)) result }
{
    let (line, at) = line_at(pickle, c.at)?;
    let behind = Counts { at, ..c };
    Ok(match string_len(line)? {
        Quoted::Plain => Effect::Push(
            behind,
            value::KIND_BYTES,
            text_word(c.at + 1, line.len() - 2),
        ),
        Quoted::Escaped(_) => Effect::Push(
            behind,
            store::KIND_ESCAPED,
            text_word(c.at, line.len()),
        ),
    })
}

// BINSTRING: the sign of the length before its bytes.
pub fn binstring(pickle: &[u8], c: Counts) -> Result<Effect, Refusal>
    requires { SomeRooms c (λ r. r.pickle ≡ pickle.now) }
    ensures { Decides c (λ r. r.pickle ≡ pickle.now) (λ s. going (binstring s)) result }
{
    if pickle.len() - c.at < 4 {
        return Err(Refusal::EndOfInput);
    }
    let len = i32_at(pickle, c.at);
    if 0x7FFF_FFFF_FFFF_FFFF < len {
        return Err(Refusal::Invalid(Wanted::Length));
    }
    let size = len as usize;
    let at = c.at + 4;
    if pickle.len() - at < size {
        return Err(Refusal::EndOfInput);
    }
    let behind = Counts { at: at + size, ..c };
    Ok(Effect::Push(behind, value::KIND_BYTES, text_word(at, size)))
}

// SHORT_BINSTRING: a length of one byte, and the text.
pub fn short_binstring(pickle: &[u8], c: Counts) -> Result<Effect, Refusal>
    requires { SomeRooms c (λ r. r.pickle ≡ pickle.now) }
    ensures { Decides c (λ r. r.pickle ≡ pickle.now) (λ s. going (short_binstring s)) result }
{
    let (at, len) = prefixed(pickle, c.at, 1)?;
    let behind = Counts { at: at + len, ..c };
    Ok(Effect::Push(behind, value::KIND_BYTES, text_word(at, len)))
}

// UNICODE: the node keeps the line, and is decoded when it is built.
pub fn unicode(pickle: &[u8], c: Counts) -> Result<Effect, Refusal>
    requires { SomeRooms c (λ r. r.pickle ≡ pickle.now) }
    ensures { Decides c (λ r. r.pickle ≡ pickle.now) (λ s. going (unicode s)) result }
{
    let (line, at) = line_at(pickle, c.at)?;
    unicode_len(line)?;
    Ok(Effect::Push(
        Counts { at, ..c },
        store::KIND_UNICODE,
        text_word(c.at, line.len()),
    ))
}

// BINUNICODE: a length of four bytes, and the text, which is repaired when it is built.
pub fn binunicode(pickle: &[u8], c: Counts) -> Result<Effect, Refusal>
    requires { SomeRooms c (λ r. r.pickle ≡ pickle.now) }
    ensures { Decides c (λ r. r.pickle ≡ pickle.now) (λ s. going (binunicode s)) result }
{
    let (at, len) = prefixed(pickle, c.at, 4)?;
    let behind = Counts { at: at + len, ..c };
    Ok(Effect::Push(behind, value::KIND_STRING, text_word(at, len)))
}

// GLOBAL: the lines of the module and of the name.
pub fn global(pickle: &[u8], c: Counts) -> Result<Effect, Refusal>
    requires { SomeRooms c (λ r. r.pickle ≡ pickle.now) }
    ensures { Decides c (λ r. r.pickle ≡ pickle.now) (λ s. going (global s)) result }
{
    let (module, from) = line_at(pickle, c.at)?;
    let (name, at) = line_at(pickle, from)?;
    let module_word = module.len() as u64 * store::MODULE_LEN_AT + c.at as u64;
    Ok(Effect::Push(
        Counts { at, ..c },
        value::KIND_GLOBAL + store::KIND_RADIX * module_word,
        text_word(from, name.len()),
    ))
}

// ---- marks and the stack

// Where what stands above the last mark begins on the stack.
fn above_mark(marks: &[u16], c: Counts) -> Result<usize, Refusal>
    requires { SomeRooms c (λ r. r.marks ≡ marks.now) }
    ensures { TakesMark c marks.now result }
{
    if c.marks == 0 {
        return Err(Refusal::StackUnderflow);
    }
    let m = marks[c.marks - 1] as usize;
    if c.stack < m {
        return Err(Refusal::StackUnderflow);
    }
    Ok(m)
}

// POP does not guard a mark.
pub fn pop(c: Counts) -> Result<Effect, Refusal>
    ensures { Decides c (λ r. Unit {0}) (λ s. going (pop_one s)) result }
{
    if c.stack == 0 {
        return Err(Refusal::StackUnderflow);
    }
    Ok(Effect::Go(Counts {
        stack: c.stack - 1,
        ..c
    }))
}

pub fn pop_mark(marks: &[u16], c: Counts) -> Result<Effect, Refusal>
    requires { SomeRooms c (λ r. r.marks ≡ marks.now) }
    ensures { Decides c (λ r. r.marks ≡ marks.now) (λ s. going (pop_to_mark s)) result }
{
    let m = above_mark(marks, c)?;
    Ok(Effect::Go(Counts {
        stack: m,
        marks: c.marks - 1,
        ..c
    }))
}

// The same node again.
pub fn dup(stack: &[u16], c: Counts) -> Result<Effect, Refusal>
    requires { SomeRooms c (λ r. r.stack ≡ stack.now) }
    ensures { Decides c (λ r. r.stack ≡ stack.now) (λ s. going (dup s)) result }
{
    if c.stack == 0 {
        return Err(Refusal::StackUnderflow);
    }
    Ok(Effect::Share(c, NodeId(stack[c.stack - 1] as usize)))
}

// ---- containers

// What stands above the last mark, as a new container.
fn gather(marks: &[u16], c: Counts, kind: u64) -> Result<Effect, Refusal>
    requires { SomeRooms c (λ r. r.marks ≡ marks.now) × HoldsLinks kind }
    ensures { Decides c (λ r. r.marks ≡ marks.now) (λ s. going (gathered kind s)) result }
{
    let m = above_mark(marks, c)?;
    Ok(Effect::Make(
        Counts {
            stack: m,
            marks: c.marks - 1,
            ..c
        },
        kind,
    ))
}

pub fn list(marks: &[u16], c: Counts) -> Result<Effect, Refusal>
    requires { SomeRooms c (λ r. r.marks ≡ marks.now) }
    ensures { Decides c (λ r. r.marks ≡ marks.now) (λ s. going (list s)) result }
{
    gather(marks, c, value::KIND_LIST)
}

pub fn tuple(marks: &[u16], c: Counts) -> Result<Effect, Refusal>
    requires { SomeRooms c (λ r. r.marks ≡ marks.now) }
    ensures { Decides c (λ r. r.marks ≡ marks.now) (λ s. going (tuple s)) result }
{
    gather(marks, c, value::KIND_TUPLE)
}

// TUPLE1 to TUPLE3 pay no heed to marks.
pub fn small_tuple(c: Counts, code: u8) -> Result<Effect, Refusal>
    requires { (0x85 ≤ code) × (code ≤ 0x87) }
    ensures { Decides c (λ r. Unit {0}) (λ s. going (tuple_n (code - 0x84) s)) result }
{
    let n = (code - 0x84) as usize;
    if c.stack < n {
        return Err(Refusal::StackUnderflow);
    }
    Ok(Effect::Make(
        Counts {
            stack: c.stack - n,
            ..c
        },
        value::KIND_TUPLE,
    ))
}

pub fn dict(marks: &[u16], c: Counts) -> Result<Effect, Refusal>
    requires { SomeRooms c (λ r. r.marks ≡ marks.now) }
    ensures { Decides c (λ r. r.marks ≡ marks.now) (λ s. going (dict s)) result }
{
    let m = above_mark(marks, c)?;
    if (c.stack - m) % 2 != 0 {
        return Err(Refusal::Invalid(Wanted::DictItems));
    }
    Ok(Effect::Make(
        Counts {
            stack: m,
            marks: c.marks - 1,
            ..c
        },
        value::KIND_DICT,
    ))
}

// What stands above `keep`, to the container below it, which must be of its kind.
fn grown(
    nodes: &[u64],
    stack: &[u16],
    c: Counts,
    keep: usize,
    marks: usize,
    container: u64,
    why: Wanted,
) -> Result<Effect, Refusal>
    requires some_rooms { SomeRooms c (λ r. (r.nodes ≡ nodes.now) × (r.stack ≡ stack.now)) }
    requires within_stack { (keep ≤ c.stack) × (marks ≤ c.marks) × GrowingKind container }
    ensures { Adds c nodes.now stack.now keep marks container why result }
{
    if keep == 0 {
        return Err(Refusal::StackUnderflow);
    }
    let owner = NodeId(stack[keep - 1] as usize);
    if kind(nodes, owner) != container {
        return Err(Refusal::Invalid(why));
    }
    Ok(Effect::Extend(
        Counts {
            stack: keep,
            marks,
            ..c
        },
        owner,
    ))
}

pub fn append(nodes: &[u64], stack: &[u16], c: Counts) -> Result<Effect, Refusal>
    requires { SomeRooms c (λ r. (r.nodes ≡ nodes.now) × (r.stack ≡ stack.now)) }
    ensures { Decides c (λ r. (r.nodes ≡ nodes.now) × (r.stack ≡ stack.now)) (λ s. going (append s)) result }
{
    if c.stack == 0 {
        return Err(Refusal::StackUnderflow);
    }
    grown(
        nodes,
        stack,
        c,
        c.stack - 1,
        c.marks,
        value::KIND_LIST,
        Wanted::List,
    )
}

pub fn appends(nodes: &[u64], stack: &[u16], marks: &[u16], c: Counts) -> Result<Effect, Refusal>
    requires { SomeRooms c (λ r. (r.nodes ≡ nodes.now) × (r.stack ≡ stack.now) × (r.marks ≡ marks.now)) }
    ensures { Decides c (λ r. (r.nodes ≡ nodes.now) × (r.stack ≡ stack.now) × (r.marks ≡ marks.now))
        (λ s. going (appends s)) result }
{
    let m = above_mark(marks, c)?;
    grown(
        nodes,
        stack,
        c,
        m,
        c.marks - 1,
        value::KIND_LIST,
        Wanted::List,
    )
}

pub fn setitem(nodes: &[u64], stack: &[u16], c: Counts) -> Result<Effect, Refusal>
    requires { SomeRooms c (λ r. (r.nodes ≡ nodes.now) × (r.stack ≡ stack.now)) }
    ensures { Decides c (λ r. (r.nodes ≡ nodes.now) × (r.stack ≡ stack.now)) (λ s. going (setitem s)) result }
{
    if c.stack < 2 {
        return Err(Refusal::StackUnderflow);
    }
    grown(
        nodes,
        stack,
        c,
        c.stack - 2,
        c.marks,
        value::KIND_DICT,
        Wanted::Dict,
    )
}

pub fn setitems(nodes: &[u64], stack: &[u16], marks: &[u16], c: Counts) -> Result<Effect, Refusal>
    requires { SomeRooms c (λ r. (r.nodes ≡ nodes.now) × (r.stack ≡ stack.now) × (r.marks ≡ marks.now)) }
    ensures { Decides c (λ r. (r.nodes ≡ nodes.now) × (r.stack ≡ stack.now) × (r.marks ≡ marks.now))
        (λ s. going (setitems s)) result }
{
    let m = above_mark(marks, c)?;
    if (c.stack - m) % 2 != 0 {
        return Err(Refusal::Invalid(Wanted::DictItems));
    }
    grown(
        nodes,
        stack,
        c,
        m,
        c.marks - 1,
        value::KIND_DICT,
        Wanted::Dict,
    )
}

// ---- the memo

// How an opcode gives a memo number: GET and PUT in a line, BINGET and BINPUT in a byte, LONG_BINGET and LONG_BINPUT in four.
#[derive(Drop)]
pub enum KeyForm {
    Line,
    Byte,
    Word,
}

// A memo number, and the place behind it: GET's and PUT's.
fn key_line(pickle: &[u8], c: Counts) -> Result<(usize, MemoKey), Refusal>
    ensures { ReadsKey key_line c pickle.now result }
{
    let (line, at) = line_at(pickle, c.at)?;
    Ok((at, MemoKey(parse_u32(line)?)))
}

// The others': `width` bytes.
fn key_low(pickle: &[u8], c: Counts, width: usize) -> Result<(usize, MemoKey), Refusal>
    requires { (c.at ≤ length pickle.now) × (width ≤ 4) }
    ensures { ReadsKey (low_bytes width) c pickle.now result }
{
    if pickle.len() - c.at < width {
        return Err(Refusal::EndOfInput);
    }
    Ok((c.at + width, MemoKey(low_at(pickle, c.at, width) as u32)))
}

// Inlined, as `long_at` is.
#[inline(always)]
fn key_by(pickle: &[u8], c: Counts, form: KeyForm) -> Result<(usize, MemoKey), Refusal>
    requires { c.at ≤ length pickle.now }
    ensures { ReadsKey (key_by form) c pickle.now result }
{
    match form {
        KeyForm::Line => key_line(pickle, c),
        KeyForm::Byte => key_low(pickle, c, 1),
        KeyForm::Word => key_low(pickle, c, 4),
    }
}

// The node of a memo number.
fn get(keys: &[u32], held: &[u16], c: Counts, key: MemoKey) -> Result<Effect, Refusal>
    requires { SomeRooms c (λ r. (r.keys ≡ keys.now) × (r.held ≡ held.now)) }
    ensures { Decides c (λ r. (r.keys ≡ keys.now) × (r.held ≡ held.now)) (λ s. going (get key.0 s)) result }
{
    let Some(i) = slot(keys, c.memo, c.greatest, key) else {
        return Err(Refusal::MissingMemo(key.0));
    };
    Ok(Effect::Share(c, NodeId(held[i] as usize)))
}

pub fn get_by(
    pickle: &[u8],
    keys: &[u32],
    held: &[u16],
    c: Counts,
    form: KeyForm,
) -> Result<Effect, Refusal>
    requires { SomeRooms c (λ r. (r.pickle ≡ pickle.now) × (r.keys ≡ keys.now) × (r.held ≡ held.now)) }
    ensures { Decides c
        (λ r. (r.pickle ≡ pickle.now) × (r.keys ≡ keys.now) × (r.held ≡ held.now))
        (λ s. going (get_by form s)) result }
{
    let (at, key) = key_by(pickle, c, form)?;
    get(keys, held, Counts { at, ..c }, key)
}

// The top, kept under a memo number.
fn put(stack: &[u16], c: Counts, key: MemoKey) -> Result<Effect, Refusal>
    requires { SomeRooms c (λ r. r.stack ≡ stack.now) }
    ensures { Decides c (λ r. r.stack ≡ stack.now) (λ s. going (put key.0 s)) result }
{
    if c.stack == 0 {
        return Err(Refusal::StackUnderflow);
    }
    Ok(Effect::Remember(c, NodeId(stack[c.stack - 1] as usize), 0, key))
}

pub fn put_by(pickle: &[u8], stack: &[u16], c: Counts, form: KeyForm) -> Result<Effect, Refusal>
    requires { SomeRooms c (λ r. (r.pickle ≡ pickle.now) × (r.stack ≡ stack.now)) }
    ensures { Decides c (λ r. (r.pickle ≡ pickle.now) × (r.stack ≡ stack.now))
        (λ s. going (put_by form s)) result }
{
    let (at, key) = key_by(pickle, c, form)?;
    put(stack, Counts { at, ..c }, key)
}

// ---- classes and objects

fn first_word(nodes: &[u64], id: NodeId) -> u64
    requires { 2 * id.0 < length nodes.now }
    ensures { result ≡ first nodes.now id.0 }
{
    nodes[2 * id.0]
}

fn second_word(nodes: &[u64], id: NodeId) -> u64
    requires { 2 * id.0 + 1 < length nodes.now }
    ensures { result ≡ second nodes.now id.0 }
{
    nodes[2 * id.0 + 1]
}

// The two topmost values, if they are a class and its arguments.
fn class_and_arguments(nodes: &[u64], stack: &[u16], c: Counts) -> Result<(NodeId, NodeId), Refusal>
    requires { SomeRooms c (λ r. (r.nodes ≡ nodes.now) × (r.stack ≡ stack.now)) }
    ensures { ReadsCall c nodes.now stack.now result }
{
    if c.stack < 2 {
        return Err(Refusal::StackUnderflow);
    }
    let class = NodeId(stack[c.stack - 2] as usize);
    let arguments = NodeId(stack[c.stack - 1] as usize);
    if kind(nodes, class) != value::KIND_GLOBAL {
        return Err(Refusal::Invalid(Wanted::Class));
    }
    if kind(nodes, arguments) != value::KIND_TUPLE {
        return Err(Refusal::Invalid(Wanted::Arguments));
    }
    Ok((class, arguments))
}

// The kind of what REDUCE makes of a class with the words `a` and `b` and of `n` arguments.
fn made_kind(pickle: &[u8], a: u64, b: u64, n: u64) -> u64
    ensures { result ≡ made_kind (module_of pickle.now a) (name_of pickle.now b) n }
{
    if 1 < n {
        return value::KIND_OBJECT;
    }
    let m = a / store::KIND_RADIX;
    if value::cut(pickle, m % store::MODULE_LEN_AT, m / store::MODULE_LEN_AT)
        != b"__builtin__".as_slice()
    {
        return value::KIND_OBJECT;
    }
    let name = value::cut(pickle, b % store::HALF, b / store::HALF);
    if name == b"set".as_slice() {
        value::KIND_SET
    } else if name == b"frozenset".as_slice() {
        value::KIND_FROZEN_SET
    } else {
        value::KIND_OBJECT
    }
}

// The one item of a tuple with the second word `word`: its links stand together, from the place in the high half on.
fn only_item(children: &[u16], word: u64) -> NodeId
    requires { word / 2 ^ 32 < length children.now }
    ensures { result.0 ≡ get_or children.now (word / 2 ^ 32) 0 }
{
    let at = (word / store::HALF) as usize;
    NodeId(children[at] as usize)
}

// REDUCE of a class and its arguments.
fn reduced(
    pickle: &[u8],
    nodes: &[u64],
    children: &[u16],
    c: Counts,
    class: NodeId,
    arguments: NodeId,
) -> Effect
    requires { SomeRooms c (λ r. (r.pickle ≡ pickle.now) × (r.nodes ≡ nodes.now) × (r.children ≡ children.now)
        × CallOnTop c r class.0 arguments.0) }
    ensures { Decides c (λ r. (r.pickle ≡ pickle.now) × (r.nodes ≡ nodes.now) × (r.children ≡ children.now)
        × CallOnTop c r class.0 arguments.0)
        (λ s. going (reduce s)) (Ok result) }
{
    let word = second_word(nodes, arguments);
    let n = word % store::HALF;
    let made = made_kind(
        pickle,
        first_word(nodes, class),
        second_word(nodes, class),
        n,
    );
    let rest = Counts {
        stack: c.stack - 2,
        ..c
    };
    if made == value::KIND_OBJECT {
        return Effect::Push(
            rest,
            value::KIND_OBJECT + store::CLASS * class.0 as u64,
            arguments.0 as u64,
        );
    }
    // A set of no argument has the empty tuple of arguments.
    if n == 0 {
        return Effect::Push(rest, made, arguments.0 as u64);
    }
    let item = only_item(children, word);
    Effect::Push(rest, made, item.0 as u64)
}

pub fn reduce(
    pickle: &[u8],
    nodes: &[u64],
    children: &[u16],
    stack: &[u16],
    c: Counts,
) -> Result<Effect, Refusal>
    requires { SomeRooms c (λ r. (r.pickle ≡ pickle.now) × (r.nodes ≡ nodes.now) × (r.children ≡ children.now) × (r.stack ≡ stack.now)) }
    ensures { Decides c (λ r. (r.pickle ≡ pickle.now) × (r.nodes ≡ nodes.now) × (r.children ≡ children.now)
        × (r.stack ≡ stack.now))
        (λ s. going (reduce s)) result }
{
    let (class, arguments) = class_and_arguments(nodes, stack, c)?;
    Ok(reduced(pickle, nodes, children, c, class, arguments))
}

// Never a set.
pub fn newobj(nodes: &[u64], stack: &[u16], c: Counts) -> Result<Effect, Refusal>
    requires { SomeRooms c (λ r. (r.nodes ≡ nodes.now) × (r.stack ≡ stack.now)) }
    ensures { Decides c (λ r. (r.nodes ≡ nodes.now) × (r.stack ≡ stack.now)) (λ s. going (newobj s)) result }
{
    let (class, arguments) = class_and_arguments(nodes, stack, c)?;
    Ok(Effect::Push(
        Counts {
            stack: c.stack - 2,
            ..c
        },
        value::KIND_OBJECT + store::NEW + store::CLASS * class.0 as u64,
        arguments.0 as u64,
    ))
}

// The top is the state of the Object below it.
pub fn build_state(nodes: &[u64], stack: &[u16], c: Counts) -> Result<Effect, Refusal>
    requires { SomeRooms c (λ r. (r.nodes ≡ nodes.now) × (r.stack ≡ stack.now)) }
    ensures { Decides c (λ r. (r.nodes ≡ nodes.now) × (r.stack ≡ stack.now)) (λ s. going (build_state s)) result }
{
    if c.stack < 2 {
        return Err(Refusal::StackUnderflow);
    }
    let object = NodeId(stack[c.stack - 2] as usize);
    let state = NodeId(stack[c.stack - 1] as usize);
    if kind(nodes, object) != value::KIND_OBJECT {
        return Err(Refusal::Invalid(Wanted::Object));
    }
    Ok(Effect::Build(
        Counts {
            stack: c.stack - 1,
            ..c
        },
        object,
        state,
    ))
}

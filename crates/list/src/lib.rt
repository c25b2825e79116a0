// The list call: one line a record of a table (RULES A9.1 to A9.3, Ask 2.1). The lines are measured first,
// `.._len` by `.._len`; then every `put_` function writes one field from `at` on, and answers the next place.
#![tactic(auto)]

ghost use Rattle.std.specs.Prelude.{true, ◌≡◌, [], ◌∷◌, ◌+◌, ◌^◌, ◌≤◌, ◌<◌, length, take, drop};
ghost use Rattle.value.specs.Shape.{names_end};
ghost use Rattle.value.specs.Stands.{label_at, arity_at, Reads};
ghost use Rattle.output.specs.Put.{Put, Room};
ghost use Rattle.list.specs.Listing.{tab_byte, printable, listed_byte, listed_text, kind_name, flag, names_at, content_of, record_line};
ghost use Rattle.list.specs.Verbatim.{Verbatim, VerbatimTo};
ghost use Rattle.list.specs.Walk.{ReadyToList, PutsListing, Countable, CountsListing};
ghost use Rattle.list.specs.Call.{ListCall};

use output::Place;
use refusal::{Answer, Refusal, Which};
use value::{
    KIND_BOOL, KIND_BYTES, KIND_DICT, KIND_F64, KIND_FROZEN_SET, KIND_GLOBAL, KIND_I64, KIND_LIST,
    KIND_NONE, KIND_SET, KIND_STRING, KIND_TUPLE,
};

#[tactic(auto, unfolding(crate::specs::Listing::printable))]
fn stands(byte: u8) -> bool
    ensures { result ≡ printable byte }
{
    (0x20 <= byte) & (byte <= 0x7E)
}

fn put_listed(byte: u8, output: &mut [u8], at: usize) -> usize
    requires { Room output.old at (listed_byte byte) }
    ensures { Put output.old at (listed_byte byte) output.new result }
{
    match byte {
        b'\\' => output::put_run(b"\\\\", output, at),
        _ if stands(byte) => output::put_byte(byte, output, at),
        _ => {
            let next = output::put_run(b"\\x", output, at);
            output::put_figures(byte as u64, 16, 2, output, next)
        }
    }
}

// How many bytes a byte is listed as.
#[tactic(auto, unfolding(crate::specs::Listing::listed_byte, crate::specs::Listing::printable, output::specs::Decimal::figures))]
fn byte_len(byte: u8) -> usize
    ensures { result ≡ length (listed_byte byte) }
{
    match byte {
        b'\\' => 2,
        _ if stands(byte) => 1,
        _ => 4,
    }
}

// A byte that is listed as it is. The tests are joined by `&`, so that several bytes are tested in one vector and cost one branch.
#[tactic(auto, unfolding(crate::specs::Listing::listed_byte))]
fn verbatim(byte: u8) -> bool
    ensures { result ≡ true → listed_byte byte ≡ byte ∷ [] }
{
    stands(byte) & (byte != b'\\')
}

fn four_verbatim(text: &[u8], i: usize) -> bool
    requires { i + 4 ≤ length text.now }
    ensures { result ≡ true → Verbatim text.now i 4 }
{
    verbatim(text[i]) & verbatim(text[i + 1]) & verbatim(text[i + 2]) & verbatim(text[i + 3])
}

fn eight_verbatim(text: &[u8], i: usize) -> bool
    requires { i + 8 ≤ length text.now }
    ensures { result ≡ true → Verbatim text.now i 8 }
{
    four_verbatim(text, i) & four_verbatim(text, i + 4)
}

// A text, byte by byte: how long it is when listed, and the text.
fn each_len(text: &[u8]) -> usize
    requires { length (listed_text text.now) < 2 ^ 64 }
    ensures { result ≡ length (listed_text text.now) }
{
    let mut sum = 0;
    for byte in text {
        sum += byte_len(*byte);
    }
    sum
}

fn put_each(text: &[u8], output: &mut [u8], at: usize) -> usize
    requires { Room output.old at (listed_text text.now) }
    ensures { Put output.old at (listed_text text.now) output.new result }
{
    let mut next = at;
    for byte in text {
        next = put_listed(*byte, output, next);
    }
    next
}

// Eight bytes of a text, at once where they are listed as they are.
fn put_eight(text: &[u8], i: usize, output: &mut [u8], at: usize) -> usize
    requires i_in_bounds { i + 8 ≤ length text.now }
    requires room { Room output.old at (listed_text (take 8 (drop i text.now))) }
    ensures { Put output.old at (listed_text (take 8 (drop i text.now))) output.new result }
{
    if eight_verbatim(text, i) {
        return output::put_run(value::part(text, i, 8), output, at);
    }
    put_each(&text[i..i + 8], output, at)
}

// How far the bytes from `from` on are surely listed as they are, by eight at a time.
fn run_by_eight(text: &[u8], from: usize, end: usize) -> usize
    requires from_le_end { from ≤ end }
    requires end_in_bounds { end ≤ length text.now }
    ensures { VerbatimTo text.now from end result }
{
    let mut i = from;
    while 8 <= end - i {
        if !eight_verbatim(text, i) {
            return i;
        }
        i += 8;
    }
    i
}

// How long the text of `count` bytes at `from` is when listed. Most texts are one run; the bytes behind it are added with no branch for each.
fn listed_len(text: &[u8], from: usize, count: usize) -> usize
    requires count_in_bounds { from + count ≤ length text.now }
    requires text_len_bound { length (listed_text (take count (drop from text.now))) < 2 ^ 64 }
    ensures { result ≡ length (listed_text (take count (drop from text.now))) }
{
    let end = from + count;
    let stop = run_by_eight(text, from, end);
    stop - from + each_len(&text[stop..end])
}

// The text, eight bytes at a time.
fn put_text(text: &[u8], from: usize, count: usize, output: &mut [u8], at: usize) -> usize
    requires count_in_bounds { from + count ≤ length text.now }
    requires room { Room output.old at (listed_text (take count (drop from text.now))) }
    ensures { Put output.old at (listed_text (take count (drop from text.now))) output.new result }
{
    let end = from + count;
    let mut i = from;
    let mut next = at;
    while 8 <= end - i {
        next = put_eight(text, i, output, next);
        i += 8;
    }
    put_each(&text[i..end], output, next)
}

#[tactic(auto, unfolding(crate::specs::Listing::kind_name, crate::specs::Listing::names))]
fn kind_name(kind: u64) -> &'static [u8]
    requires { kind < 13 }
    ensures { result.now ≡ kind_name kind }
{
    match kind {
        KIND_NONE => b"none",
        KIND_BOOL => b"bool",
        KIND_I64 => b"int",
        KIND_F64 => b"float",
        KIND_BYTES => b"bytes",
        KIND_STRING => b"string",
        KIND_LIST => b"list",
        KIND_TUPLE => b"tuple",
        KIND_SET => b"set",
        KIND_FROZEN_SET => b"frozenset",
        KIND_DICT => b"dict",
        KIND_GLOBAL => b"global",
        _ => b"object",
    }
}

#[tactic(auto, unfolding(crate::specs::Listing::flag, value::specs::Value::bit))]
fn put_flag(value: bool, output: &mut [u8], at: usize) -> usize
    requires { Room output.old at (flag value ∷ []) }
    ensures { Put output.old at (flag value ∷ []) output.new result }
{
    output::put_byte(b'0' + value as u8, output, at)
}

// A module and a name, whose texts stand side by side from `from` on; `lengths` has the module's in its upper half.
fn listed_names_len(text: &[u8], from: u64, lengths: u64) -> usize
    requires lengths_in_bounds { names_end from lengths ≤ length text.now }
    requires len_bound { length (names_at text.now from lengths) < 2 ^ 64 }
    ensures { result ≡ length (names_at text.now from lengths) }
{
    let start = from as usize;
    let first = (lengths / 0x1_0000_0000) as usize;
    let second = (lengths % 0x1_0000_0000) as usize;
    listed_len(text, start, first) + 1 + listed_len(text, start + first, second)
}

fn put_listed_names(text: &[u8], from: u64, lengths: u64, output: &mut [u8], at: usize) -> usize
    requires lengths_in_bounds { names_end from lengths ≤ length text.now }
    requires room { Room output.old at (names_at text.now from lengths) }
    ensures { Put output.old at (names_at text.now from lengths) output.new result }
{
    let start = from as usize;
    let first = (lengths / 0x1_0000_0000) as usize;
    let second = (lengths % 0x1_0000_0000) as usize;
    let end = put_text(text, start, first, output, at);
    let next = output::put_byte(b'\t', output, end);
    put_text(text, start + first, second, output, next)
}

// What an Object's content has behind its names.
fn put_flags(new: bool, state: bool, output: &mut [u8], at: usize) -> usize
    requires { Room output.old at (tab_byte ∷ flag new ∷ tab_byte ∷ flag state ∷ []) }
    ensures { Put output.old at (tab_byte ∷ flag new ∷ tab_byte ∷ flag state ∷ []) output.new result }
{
    let first = output::put_byte(b'\t', output, at);
    let end = put_flag(new, output, first);
    let second = output::put_byte(b'\t', output, end);
    put_flag(state, output, second)
}

// The content of record i.
fn content_len(words: &[u64], text: &[u8], i: usize) -> usize
    requires reads { Reads words.now text.now i }
    requires len_bound { length (content_of (label_at words.now text.now i) (arity_at words.now i)) < 2 ^ 64 }
    ensures { result ≡ length (content_of (label_at words.now text.now i) (arity_at words.now i)) }
{
    let second = words[4 * i + 1];
    let third = words[4 * i + 2];
    match value::head_of(words[4 * i]).kind {
        KIND_NONE | KIND_BOOL => 1,
        KIND_I64 => output::signed_len(second),
        KIND_F64 => 16,
        KIND_BYTES | KIND_STRING => listed_len(text, second as usize, third as usize),
        KIND_LIST..=KIND_DICT => output::digits(second),
        KIND_GLOBAL => listed_names_len(text, second, third),
        _ => listed_names_len(text, second, third) + 4,
    }
}

fn put_content(words: &[u64], text: &[u8], i: usize, output: &mut [u8], at: usize) -> usize
    requires reads { Reads words.now text.now i }
    requires room { Room output.old at (content_of (label_at words.now text.now i) (arity_at words.now i)) }
    ensures { Put output.old at
        (content_of (label_at words.now text.now i) (arity_at words.now i))
        output.new result }
{
    let head = value::head_of(words[4 * i]);
    let second = words[4 * i + 1];
    let third = words[4 * i + 2];
    match head.kind {
        KIND_NONE => output::put_byte(b'-', output, at),
        KIND_BOOL => put_flag(second == 1, output, at),
        KIND_I64 => output::put_signed(second, output, at),
        KIND_F64 => output::put_figures(second, 16, 16, output, at),
        KIND_BYTES | KIND_STRING => put_text(text, second as usize, third as usize, output, at),
        KIND_LIST..=KIND_DICT => output::put_decimal(second, output, at),
        KIND_GLOBAL => put_listed_names(text, second, third, output, at),
        _ => {
            let end = put_listed_names(text, second, third, output, at);
            put_flags(head.new, head.state, output, end)
        }
    }
}

// The line of record i.
fn line_len(words: &[u64], text: &[u8], i: usize, depth: u64) -> usize
    requires reads { Reads words.now text.now i }
    requires len_bound { length (record_line depth (label_at words.now text.now i) (arity_at words.now i)) < 2 ^ 64 }
    ensures { result ≡ length (record_line depth (label_at words.now text.now i) (arity_at words.now i)) }
{
    let head = value::head_of(words[4 * i]);
    output::digits(depth) + kind_name(head.kind).len() + content_len(words, text, i) + 3
}

fn put_line(words: &[u64], text: &[u8], i: usize, depth: u64, output: &mut [u8], at: usize) -> usize
    requires reads { Reads words.now text.now i }
    requires room { Room output.old at (record_line depth (label_at words.now text.now i) (arity_at words.now i)) }
    ensures { Put output.old at
        (record_line depth (label_at words.now text.now i) (arity_at words.now i))
        output.new result }
{
    let head = value::head_of(words[4 * i]);
    let a = output::put_decimal(depth, output, at);
    let b = output::put_byte(b'\t', output, a);
    let c = output::put_run(kind_name(head.kind), output, b);
    let d = output::put_byte(b'\t', output, c);
    let e = put_content(words, text, i, output, d);
    output::put_byte(b'\n', output, e)
}

// `count` values that stand side by side from record `from` on: the line of each, and its contents one deeper. The places from `at` on
// that their lines take.
fn values_len(words: &[u64], text: &[u8], from: usize, count: usize, depth: u64, at: usize) -> Place
    requires { Countable words.now text.now from count depth at }
    ensures { CountsListing words.now text.now from count depth at result.record result.at }
{
    let mut i = from;
    let mut next = at;
    for _ in 0..count {
        let inner = next + line_len(words, text, i, depth);
        let end = values_len(words, text, i + 1, value::arity(words, i), depth + 1, inner);
        i = end.record;
        next = end.at;
    }
    Place {
        record: i,
        at: next,
    }
}

// The same lines, put.
fn put_values(
    words: &[u64],
    text: &[u8],
    from: usize,
    count: usize,
    depth: u64,
    output: &mut [u8],
    at: usize,
) -> Place
    requires { ReadyToList words.now text.now from count depth output.old at }
    ensures { PutsListing words.now text.now from count depth output.old at output.new result.record result.at }
{
    let mut i = from;
    let mut next = at;
    for _ in 0..count {
        next = put_line(words, text, i, depth, output, next);
        let end = put_values(
            words,
            text,
            i + 1,
            value::arity(words, i),
            depth + 1,
            output,
            next,
        );
        i = end.record;
        next = end.at;
    }
    Place {
        record: i,
        at: next,
    }
}

// BadTable, then OutputFull, else the bytes written; measured first, so that an output that is too short stays as it is.
pub fn list_table(words: &[u64], count: usize, text: &[u8], output: &mut [u8]) -> Answer
    ensures { ListCall words.now count text.now output.old output.new result }
{
    if table::well_formed(words, count, text) {
        let measured = values_len(words, text, 0, 1, 0, 0);
        if output.len() < measured.at {
            return refusal::refused(Refusal::OutputFull);
        }
        let end = put_values(words, text, 0, 1, 0, output, 0);
        Answer {
            number: 0,
            detail: 0,
            length: end.at as u64,
            count: 0,
        }
    } else {
        refusal::refused(Refusal::BadTable(Which::First))
    }
}

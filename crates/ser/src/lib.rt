// Writing (ser.rs): a value's bytes, at protocol 2 as Python 2 writes it, without the memo. The length is summed up over the records,
// and what is written then has room; as in crate `output`, a function writes from `at` on and answers the next place. `to_writer`
// is left out.
#![tactic(auto)]

ghost use Rattle.std.specs.Prelude.{◌≡◌, ◌&&◌, ◌+◌, ◌*◌, ◌^◌, ◌≤◌, ◌<◌, suc, min, length, drop};
ghost use Rattle.value.specs.Value.{bit};
ghost use Rattle.value.specs.Stands.{word_at, label_at, arity_at, Reads};
ghost use Rattle.output.specs.Put.{Put, Room};
ghost use Rattle.op.specs.Table.{code_of};
ghost use Rattle.value.specs.Shape.{kind_in, names_end, module_part, name_part};
ghost use Rattle.ser.specs.Image.{low, high, in_i32, int_image, float_image, bytes_image, string_image, global_image, set_opening, bool_image, opening, joined, one_batch, batch_size, batches, items_image, tuple_mark, tuple_opcode, tuple_image, object_opcode, object_image, framed};
ghost use Rattle.ser.specs.Walk.{ReadyToWrite, Puts, Wrote};
ghost use Rattle.ser.specs.Length.{batches_take, appends_take, around, opening_takes, record_takes, records_take};
ghost use Rattle.ser.specs.Writable.{ends_cr, writable, writable_label, writable_from, RecordsReadable};
ghost use Rattle.ser.specs.Call.{WriteCall};

use output::Place;
use refusal::{Answer, Refusal, Which};
use value::{
    KIND_BOOL, KIND_BYTES, KIND_DICT, KIND_F64, KIND_FROZEN_SET, KIND_I64, KIND_LIST, KIND_NONE,
    KIND_OBJECT, KIND_SET, KIND_STRING, KIND_TUPLE,
};

// The low `count` bytes of a number, low byte first.
fn put_low(n: u64, count: usize, output: &mut [u8], at: usize) -> usize
    requires count_bound { count ≤ 8 }
    requires room { Room output.old at (low count n) }
    ensures { Put output.old at (low count n) output.new result }
{
    output::put_run(&n.to_le_bytes()[..count], output, at)
}

#[tactic(auto, unfolding(crate::specs::Image::bool_image, crate::proofs::Laws::numbers))]
fn encode_bool(value: bool, output: &mut [u8], at: usize) -> usize
    requires { Room output.old at (bool_image value) }
    ensures { Put output.old at (bool_image value) output.new result }
{
    let code = if value { op::NEWTRUE } else { op::NEWFALSE };
    output::put_byte(code, output, at)
}

// Whether the i64 of 64 bits is one of an i32.
#[tactic(auto, unfolding(crate::specs::Image::in_i32))]
fn in_i32(bits: u64) -> bool
    ensures { result ≡ in_i32 bits }
{
    bits < 1 << 31 || u64::MAX << 31 <= bits
}

// An i64, from its 64 bits.
fn encode_i64(bits: u64, output: &mut [u8], at: usize) -> usize
    requires { Room output.old at (int_image bits) }
    ensures { Put output.old at (int_image bits) output.new result }
{
    if bits <= 255 {
        let next = output::put_byte(op::BININT1, output, at);
        return put_low(bits, 1, output, next);
    }
    if bits <= 65535 {
        let next = output::put_byte(op::BININT2, output, at);
        return put_low(bits, 2, output, next);
    }
    if in_i32(bits) {
        let next = output::put_byte(op::BININT, output, at);
        return put_low(bits, 4, output, next);
    }
    let next = output::put_byte(op::INT, output, at);
    let end = output::put_signed(bits, output, next);
    output::put_byte(b'\n', output, end)
}

fn encode_f64(bits: u64, output: &mut [u8], at: usize) -> usize
    requires { Room output.old at (float_image bits) }
    ensures { Put output.old at (float_image bits) output.new result }
{
    let next = output::put_byte(op::BINFLOAT, output, at);
    output::put_run(&bits.to_be_bytes(), output, next)
}

fn encode_bytes(value: &[u8], output: &mut [u8], at: usize) -> usize
    requires { Room output.old at (bytes_image value.now) }
    ensures { Put output.old at (bytes_image value.now) output.new result }
{
    let len = value.len();
    if len <= 255 {
        let next = output::put_byte(op::SHORT_BINSTRING, output, at);
        let end = put_low(len as u64, 1, output, next);
        return output::put_run(value, output, end);
    }
    let next = output::put_byte(op::BINSTRING, output, at);
    let end = put_low(len as u64, 4, output, next);
    output::put_run(value, output, end)
}

fn encode_string(value: &[u8], output: &mut [u8], at: usize) -> usize
    requires { Room output.old at (string_image value.now) }
    ensures { Put output.old at (string_image value.now) output.new result }
{
    let next = output::put_byte(op::BINUNICODE, output, at);
    let end = put_low(value.len() as u64, 4, output, next);
    output::put_run(value, output, end)
}

fn encode_global(module: &[u8], name: &[u8], output: &mut [u8], at: usize) -> usize
    requires { Room output.old at (global_image «module».now name.now) }
    ensures { Put output.old at (global_image «module».now name.now) output.new result }
{
    let a = output::put_byte(op::GLOBAL, output, at);
    let b = output::put_run(module, output, a);
    let c = output::put_byte(b'\n', output, b);
    let d = output::put_run(name, output, c);
    output::put_byte(b'\n', output, d)
}

// Python 2 has no set opcodes and pickles `set([items])`: the name, and the list that the items are appended to.
fn encode_set(name: &[u8], output: &mut [u8], at: usize) -> usize
    requires { Room output.old at (set_opening name.now) }
    ensures { Put output.old at (set_opening name.now) output.new result }
{
    let next = encode_global(b"__builtin__", name, output, at);
    output::put_byte(op::EMPTY_LIST, output, next)
}

// A module and a name, whose texts stand side by side from `from` on; `lengths` has the module's in its upper half.
fn encode_names(text: &[u8], from: u64, lengths: u64, output: &mut [u8], at: usize) -> usize
    requires lengths_in_bounds { names_end from lengths ≤ length text.now }
    requires room { Room output.old at (global_image (module_part lengths (drop from text.now)) (name_part lengths (drop from text.now))) }
    ensures { Put output.old at
        (global_image (module_part lengths (drop from text.now)) (name_part lengths (drop from text.now)))
        output.new result }
{
    let start = from as usize;
    let first = (lengths / 0x1_0000_0000) as usize;
    let second = (lengths % 0x1_0000_0000) as usize;
    encode_global(
        value::part(text, start, first),
        value::part(text, start + first, second),
        output,
        at,
    )
}

// What stands before the contents of record i.
fn encode_opening(words: &[u64], text: &[u8], i: usize, output: &mut [u8], at: usize) -> usize
    requires reads { Reads words.now text.now i }
    requires room { Room output.old at (opening (label_at words.now text.now i)) }
    ensures { Put output.old at (opening (label_at words.now text.now i)) output.new result }
{
    let second = words[4 * i + 1];
    let third = words[4 * i + 2];
    match value::head_of(words[4 * i]).kind {
        KIND_NONE => output::put_byte(op::NONE, output, at),
        KIND_BOOL => encode_bool(second == 1, output, at),
        KIND_I64 => encode_i64(second, output, at),
        KIND_F64 => encode_f64(second, output, at),
        KIND_BYTES => encode_bytes(
            value::part(text, second as usize, third as usize),
            output,
            at,
        ),
        KIND_STRING => encode_string(
            value::part(text, second as usize, third as usize),
            output,
            at,
        ),
        KIND_LIST => output::put_byte(op::EMPTY_LIST, output, at),
        KIND_TUPLE => at,
        KIND_SET => encode_set(b"set", output, at),
        KIND_FROZEN_SET => encode_set(b"frozenset", output, at),
        KIND_DICT => output::put_byte(op::EMPTY_DICT, output, at),
        _ => encode_names(text, second, third, output, at),
    }
}

// How many items Python appends or sets at once.
const BATCH: usize = 1000;

// The values of a batch: an entry has two.
#[tactic(auto, unfolding(crate::specs::Image::batch_size))]
fn batch_size(entries: bool) -> usize
    ensures { result ≡ batch_size entries }
{
    if entries { 2 * BATCH } else { BATCH }
}

// Of so many values, those of the next batch.
fn batch_of(left: usize, entries: bool) -> usize
    ensures { result ≡ min (batch_size entries) left }
{
    left.min(batch_size(entries))
}

// The value that begins at record i. This function and those below call one another; with each call fewer records are left, or as
// many for a function that asks less of them.
#[cycle(encode)]
fn encode(words: &[u64], text: &[u8], i: usize, output: &mut [u8], at: usize) -> Place
    requires { ReadyToWrite joined words.now text.now i 1 output.old at }
    ensures { Wrote joined words.now text.now i 1 output.old at output.new result.record result.at }
{
    let head = value::head_of(words[4 * i]);
    let kind = head.kind;
    let next = encode_opening(words, text, i, output, at);
    if !value::holds(kind) {
        return Place {
            record: i + 1,
            at: next,
        };
    }
    if kind == KIND_OBJECT {
        return encode_object(words, text, i + 1, head.new, head.state, output, next);
    }
    let count = value::arity(words, i);
    match kind {
        KIND_LIST => encode_appends(words, text, i + 1, count, output, next),
        KIND_TUPLE => encode_tuple(words, text, i + 1, count, output, next),
        KIND_DICT => encode_batches(words, text, i + 1, count, true, output, next),
        _ => {
            let end = encode_appends(words, text, i + 1, count, output, next);
            let argument = output::put_byte(op::TUPLE1, output, end.at);
            Place {
                record: end.record,
                at: output::put_byte(op::REDUCE, output, argument),
            }
        }
    }
}

// `count` values that stand side by side from record `from` on, one after the other. A call costs more than most values do, so
// only those that hold others are given to `encode`.
#[cycle(encode)]
fn encode_items(
    words: &[u64],
    text: &[u8],
    from: usize,
    count: usize,
    output: &mut [u8],
    at: usize,
) -> Place
    requires { ReadyToWrite joined words.now text.now from count output.old at }
    ensures { Wrote joined words.now text.now from count output.old at output.new result.record result.at }
{
    let mut i = from;
    let mut next = at;
    for _ in 0..count {
        if value::holds(value::head_of(words[4 * i]).kind) {
            let end = encode(words, text, i, output, next);
            i = end.record;
            next = end.at;
        } else {
            next = encode_opening(words, text, i, output, next);
            i += 1;
        }
    }
    Place {
        record: i,
        at: next,
    }
}

// A batch, of items or of entries.
#[cycle(encode)]
fn encode_batch(
    words: &[u64],
    text: &[u8],
    from: usize,
    count: usize,
    entries: bool,
    output: &mut [u8],
    at: usize,
) -> Place
    requires { ReadyToWrite (one_batch entries) words.now text.now from count output.old at }
    ensures { Wrote (one_batch entries) words.now text.now from count
        output.old at output.new result.record result.at }
{
    if entries {
        if count == 2 {
            let entry = encode_items(words, text, from, count, output, at);
            return Place {
                record: entry.record,
                at: output::put_byte(op::SETITEM, output, entry.at),
            };
        }
        let next = output::put_byte(op::MARK, output, at);
        let end = encode_items(words, text, from, count, output, next);
        return Place {
            record: end.record,
            at: output::put_byte(op::SETITEMS, output, end.at),
        };
    }
    let next = output::put_byte(op::MARK, output, at);
    let end = encode_items(words, text, from, count, output, next);
    Place {
        record: end.record,
        at: output::put_byte(op::APPENDS, output, end.at),
    }
}

// `count` values in batches.
#[cycle(encode)]
fn encode_batches(
    words: &[u64],
    text: &[u8],
    from: usize,
    count: usize,
    entries: bool,
    output: &mut [u8],
    at: usize,
) -> Place
    requires { ReadyToWrite (batches entries) words.now text.now from count output.old at }
    ensures { Wrote (batches entries) words.now text.now from count
        output.old at output.new result.record result.at }
{
    let mut i = from;
    let mut left = count;
    let mut next = at;
    while left > 0 {
        let size = batch_of(left, entries);
        let end = encode_batch(words, text, i, size, entries, output, next);
        i = end.record;
        next = end.at;
        left -= size;
    }
    Place {
        record: i,
        at: next,
    }
}

// The items of a list, or of the list that is a set's argument.
#[cycle(encode)]
fn encode_appends(
    words: &[u64],
    text: &[u8],
    from: usize,
    count: usize,
    output: &mut [u8],
    at: usize,
) -> Place
    requires { ReadyToWrite items_image words.now text.now from count output.old at }
    ensures { Wrote items_image words.now text.now from count output.old at output.new result.record result.at }
{
    if count == 1 {
        let item = encode_items(words, text, from, count, output, at);
        return Place {
            record: item.record,
            at: output::put_byte(op::APPEND, output, item.at),
        };
    }
    encode_batches(words, text, from, count, false, output, at)
}

fn tuple_mark(len: usize, output: &mut [u8], at: usize) -> usize
    requires { Room output.old at (tuple_mark len) }
    ensures { Put output.old at (tuple_mark len) output.new result }
{
    if len <= 3 {
        return at;
    }
    output::put_byte(op::MARK, output, at)
}

#[tactic(auto, unfolding(crate::specs::Image::tuple_opcode, crate::proofs::Laws::numbers))]
fn tuple_opcode(len: usize) -> u8
    ensures { result ≡ code_of (tuple_opcode len) }
{
    match len {
        0 => op::EMPTY_TUPLE,
        1 => op::TUPLE1,
        2 => op::TUPLE2,
        3 => op::TUPLE3,
        _ => op::TUPLE,
    }
}

#[cycle(encode)]
fn encode_tuple(
    words: &[u64],
    text: &[u8],
    from: usize,
    count: usize,
    output: &mut [u8],
    at: usize,
) -> Place
    requires { ReadyToWrite tuple_image words.now text.now from count output.old at }
    ensures { Wrote tuple_image words.now text.now from count output.old at output.new result.record result.at }
{
    let next = tuple_mark(count, output, at);
    let end = encode_items(words, text, from, count, output, next);
    Place {
        record: end.record,
        at: output::put_byte(tuple_opcode(count), output, end.at),
    }
}

#[tactic(auto, unfolding(crate::specs::Image::object_opcode, crate::proofs::Laws::numbers))]
fn object_opcode(new: bool) -> u8
    ensures { result ≡ code_of (object_opcode new) }
{
    if new { op::NEWOBJ } else { op::REDUCE }
}

// An Object's arguments, which are a Tuple, and any state.
#[cycle(encode)]
fn encode_object(
    words: &[u64],
    text: &[u8],
    from: usize,
    new: bool,
    state: bool,
    output: &mut [u8],
    at: usize,
) -> Place
    requires { ReadyToWrite (object_image new) words.now text.now from (suc (bit state)) output.old at }
    ensures { Wrote (object_image new) words.now text.now from (suc (bit state))
        output.old at output.new result.record result.at }
{
    let args = encode(words, text, from, output, at);
    let made = output::put_byte(object_opcode(new), output, args.at);
    if state {
        let end = encode(words, text, args.record, output, made);
        return Place {
            record: end.record,
            at: output::put_byte(op::BUILD, output, end.at),
        };
    }
    Place {
        record: args.record,
        at: made,
    }
}

// ---- the length, by arithmetic: no byte is looked at

#[tactic(auto, unfolding(crate::specs::Image::int_image, crate::specs::Image::low, crate::proofs::Laws::numbers))]
fn int_len(bits: u64) -> usize
    ensures { result ≡ length (int_image bits) }
{
    match bits {
        0..=255 => 2,
        256..=65535 => 3,
        _ if in_i32(bits) => 5,
        _ => output::signed_len(bits) + 2,
    }
}

// What stands before the contents of a record, from its kind and its words 1 and 2.
#[tactic(auto, unfolding(crate::specs::Length::opening_takes))]
fn opening_len(kind: u64, second: u64, third: u64) -> usize
    requires kind_bound { kind < 13 }
    requires len_bound { opening_takes kind second third < 2 ^ 64 }
    ensures { result ≡ opening_takes kind second third }
{
    match kind {
        KIND_I64 => int_len(second),
        KIND_F64 => 9,
        KIND_BYTES if third <= 255 => third as usize + 2,
        KIND_BYTES | KIND_STRING => third as usize + 5,
        KIND_TUPLE => 0,
        KIND_SET => 18,
        KIND_FROZEN_SET => 24,
        KIND_NONE..=KIND_DICT => 1,
        _ => (third / 0x1_0000_0000) as usize + (third % 0x1_0000_0000) as usize + 3,
    }
}

// What batches of so many values take beside those: MARK and an opcode each, but an entry alone one opcode.
#[tactic(auto, unfolding(crate::specs::Length::batches_take, crate::specs::Image::batch_size))]
fn batches_len(count: usize, entries: bool) -> usize
    requires { count ≤ 2048 }
    ensures { result ≡ batches_take entries count }
{
    let size = batch_size(entries);
    if entries && count % size == 2 {
        count / size * 2 + 1
    } else {
        count.div_ceil(size) * 2
    }
}

#[tactic(auto, unfolding(crate::specs::Length::appends_take))]
fn appends_len(count: usize) -> usize
    requires { count ≤ 2048 }
    ensures { result ≡ appends_take count }
{
    if count < 2 {
        count
    } else {
        batches_len(count, false)
    }
}

// What the contents of a record of so many values take beside those.
#[tactic(auto, unfolding(crate::specs::Length::around, crate::specs::Length::tuple_takes))]
fn contents_len(kind: u64, count: usize) -> usize
    requires kind_bound { kind < 13 }
    requires count_bound { count ≤ 2048 }
    ensures { result ≡ around kind count }
{
    match kind {
        KIND_NONE..=KIND_STRING => 0,
        KIND_LIST => appends_len(count),
        KIND_TUPLE => if count <= 3 { 1 } else { 2 },
        KIND_SET | KIND_FROZEN_SET => appends_len(count) + 2,
        KIND_DICT => batches_len(count, true),
        _ => count,
    }
}

// What record i takes without the values in it.
fn record_len(words: &[u64], i: usize) -> usize
    requires i_in_bounds { 4 * i + 4 ≤ length words.now }
    requires kind_bound { kind_in (word_at words.now i 0) < 13 }
    requires arity_bound { arity_at words.now i ≤ min 2048 (length words.now) }
    requires len_bound { record_takes words.now i < 2 ^ 64 }
    ensures { result ≡ record_takes words.now i }
{
    let kind = value::head_of(words[4 * i]).kind;
    let beside = contents_len(kind, value::arity(words, i));
    opening_len(kind, words[4 * i + 1], words[4 * i + 2]) + beside
}

// What all records take, and PROTO 2 and STOP.
fn pickle_len(words: &[u64], count: usize, text: &[u8]) -> usize
    requires records_readable { RecordsReadable words.now text.now 0 count }
    requires len_bound { records_take words.now 0 count + 3 < 2 ^ 64 }
    ensures { result ≡ records_take words.now 0 count + 3 }
{
    let mut sum = 3;
    for i in 0..count {
        sum += record_len(words, i);
    }
    sum
}

// PROTO 2, the value, STOP.
fn encode_pickle(words: &[u64], text: &[u8], output: &mut [u8]) -> usize
    requires { ReadyToWrite framed words.now text.now 0 1 output.old 0 }
    ensures { Puts framed words.now text.now 0 1 output.old 0 output.new result }
{
    let proto = output::put_byte(op::PROTO, output, 0);
    let next = output::put_byte(2, output, proto);
    let end = encode(words, text, 0, output, next);
    output::put_byte(op::STOP, output, end.at)
}

// Whether a module or a name is the line that a reader finds where it was written.
#[tactic(auto, unfolding(crate::specs::Writable::writable, crate::specs::Writable::has_newline, crate::specs::Writable::ends_cr))]
fn name_is_writable(name: &[u8]) -> bool
    ensures { result ≡ writable name.now }
{
    !name.contains(&b'\n') && !name.ends_with(b"\r")
}

// The same of a module and a name, which stand as for `encode_names`.
fn names_are_writable(text: &[u8], from: u64, lengths: u64) -> bool
    requires { names_end from lengths ≤ length text.now }
    ensures { result ≡ (writable (module_part lengths (drop from text.now)) && writable (name_part lengths (drop from text.now))) }
{
    let start = from as usize;
    let first = (lengths / 0x1_0000_0000) as usize;
    let second = (lengths % 0x1_0000_0000) as usize;
    name_is_writable(value::part(text, start, first))
        && name_is_writable(value::part(text, start + first, second))
}

// The same of record i; only a Global and an Object have names.
fn record_is_writable(words: &[u64], text: &[u8], i: usize) -> bool
    requires { Reads words.now text.now i }
    ensures { result ≡ writable_label (label_at words.now text.now i) }
{
    value::head_of(words[4 * i]).kind <= KIND_DICT
        || names_are_writable(text, words[4 * i + 1], words[4 * i + 2])
}

// The same of all records.
fn is_writable(words: &[u64], count: usize, text: &[u8]) -> bool
    requires { RecordsReadable words.now text.now 0 count }
    ensures { result ≡ writable_from words.now text.now 0 count }
{
    (0..count).all(|i| record_is_writable(words, text, i))
}

// BadTable, then UnwritableName, then OutputFull, else the bytes written; measured first, so that an output that is too short
// stays as it is.
pub fn to_bytes(words: &[u64], count: usize, text: &[u8], output: &mut [u8]) -> Answer
    ensures { WriteCall words.now count text.now output.old output.new result }
{
    if table::well_formed(words, count, text) {
        if !is_writable(words, count, text) {
            return refusal::refused(Refusal::UnwritableName);
        }
        if output.len() < pickle_len(words, count, text) {
            return refusal::refused(Refusal::OutputFull);
        }
        let length = encode_pickle(words, text, output);
        Answer {
            number: 0,
            detail: 0,
            length: length as u64,
            count: 0,
        }
    } else {
        refusal::refused(Refusal::BadTable(Which::First))
    }
}

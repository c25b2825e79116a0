// The table of a value (RULES A2): whether any lent words, count and text are well formed, the order of two of them, and the
// length of a table's text. Each set item or dict key is compared once with the one before it.
#![tactic(auto)]

ghost use Rattle.std.specs.Prelude.{false, ◌≢◌, ◌≡◌, ◌+◌, ◌*◌, ◌<◌, ◌≤◌, min, length, drop};
ghost use Rattle.value.specs.Value.{Forest, Value, one, count as count_of};
ghost use Rattle.value.specs.Order.{order};
ghost use Rattle.value.specs.Shape.{kind_in, holding, arity_of};
ghost use Rattle.value.specs.Stands.{word_at, Reads, Begins, Stands};
ghost use Rattle.value.specs.WellFormed.{WellFormed, ascending};
ghost use Rattle.table.specs.Find.{find, find_many};
ghost use Rattle.table.specs.Record.{right0, right1, right2, right3, span_of, size_of};
ghost use Rattle.table.specs.Sound.{size_at};
ghost use Rattle.table.specs.Names.{names_right};
ghost use Rattle.table.specs.Items.{Held, ItemInside, next_at, picked, arranged_by};
ghost use Rattle.table.specs.Check.{Lent, HeadSays, LeafSays, Closes, sizes_right, checked_of};
ghost use Rattle.table.specs.Length.{has_text, end_of, text_length};
ghost use Rattle.table.specs.Decides.{YesIff};
ghost use Rattle.value.specs.Told.{told};
ghost use Rattle.table.specs.Compare.{bad_table, ordered as ordered_by, Compares};

use refusal::{Refusal, Which, detail, number};
use std::cmp::Ordering;
use utf8::valid;
use value::{
    Head, KIND_BOOL, KIND_BYTES, KIND_DICT, KIND_F64, KIND_FROZEN_SET, KIND_GLOBAL, KIND_I64,
    KIND_LIST, KIND_NONE, KIND_OBJECT, KIND_SET, KIND_STRING, KIND_TUPLE, compare_at,
    compare_bytes, compare_ints, head_of, holds, part, word_of,
};

// What each word of a record has to be, by its kind, the place of its text and its size.

fn word0(a: u64) -> u64
    ensures { result ≡ right0 a }
{
    let head = head_of(a);
    match head.kind {
        KIND_NONE..=KIND_GLOBAL => word_of(Head {
            kind: head.kind,
            new: false,
            state: false,
        }),
        KIND_OBJECT => word_of(head),
        _ => 0,
    }
}

fn word1(a: u64, b: u64, at: u64) -> u64
    ensures { result ≡ right1 (kind_in a) b at }
{
    let kind = head_of(a).kind;
    match kind {
        KIND_NONE..=KIND_F64 => match kind {
            KIND_NONE => 0,
            KIND_BOOL => u64::from(b == 1),
            _ => b,
        },
        KIND_BYTES..=KIND_STRING => at,
        KIND_LIST..=KIND_DICT => b,
        _ => at,
    }
}

fn word2(a: u64, c: u64, size: u64) -> u64
    ensures { result ≡ right2 (kind_in a) c size }
{
    match head_of(a).kind {
        KIND_NONE..=KIND_F64 => 0,
        KIND_BYTES..=KIND_STRING => c,
        KIND_LIST..=KIND_DICT => size,
        _ => c,
    }
}

fn word3(a: u64, size: u64) -> u64
    ensures { result ≡ right3 (kind_in a) size }
{
    if head_of(a).kind < KIND_OBJECT {
        return 0;
    }
    size
}

// The length of a record's text.
fn span(a: u64, c: u64) -> u64
    ensures { result ≡ span_of (kind_in a) c }
{
    match head_of(a).kind {
        KIND_NONE..=KIND_F64 => 0,
        KIND_BYTES..=KIND_STRING => c,
        KIND_LIST..=KIND_DICT => 0,
        _ => c / 0x1_0000_0000 + c % 0x1_0000_0000,
    }
}

// How many records a record says that it has with itself.
fn size(a: u64, c: u64, d: u64) -> u64
    ensures { result ≡ size_of (kind_in a) c d }
{
    match head_of(a).kind {
        KIND_NONE..=KIND_STRING => 1,
        KIND_LIST..=KIND_DICT => c,
        KIND_GLOBAL => 1,
        _ => d,
    }
}

// How many values are directly in a record, as far as 4,096: no table has as many.
fn arity(a: u64, b: u64) -> u64
    requires { kind_in a < 13 }
    ensures { result ≡ min 4096 (arity_of a b) }
{
    let head = head_of(a);
    match head.kind {
        KIND_LIST..=KIND_FROZEN_SET => b.min(4096),
        KIND_DICT => 2 * b.min(2048),
        KIND_OBJECT => 1 + u64::from(head.state),
        _ => 0,
    }
}

// A String's text, and a name's module and name, are valid UTF-8.
fn named(a: u64, c: u64, text: &[u8], at: usize) -> bool
    requires { at + span_of (kind_in a) c ≤ length text.now }
    ensures { result ≡ names_right (kind_in a) c (drop at text.now) }
{
    match head_of(a).kind {
        KIND_NONE..=KIND_BYTES => true,
        KIND_STRING => valid(part(text, at, c as usize)),
        KIND_LIST..=KIND_DICT => true,
        _ => {
            let m = (c / 0x1_0000_0000) as usize;
            let n = (c % 0x1_0000_0000) as usize;
            valid(part(text, at, m)) && valid(part(text, at + m, n))
        }
    }
}

// The head of record i, whose text has to be at `at`, is all but its size and what its contents have to be: where it is right,
// the length of the text and how many values are directly in the record.
fn head(words: &[u64], count: usize, text: &[u8], i: usize, at: usize) -> Option<(usize, usize)>
    requires lent { Lent words.now count text.now }
    requires i_lt_count { i < count }
    requires at_in_bounds { at ≤ length text.now }
    ensures { HeadSays words.now count text.now i at result }
{
    let a = words[4 * i];
    let b = words[4 * i + 1];
    let c = words[4 * i + 2];
    if a != word0(a) || b != word1(a, b, at as u64) {
        return None;
    }
    let long = span(a, c);
    if long > (text.len() - at) as u64 {
        return None;
    }
    let inside = arity(a, b);
    if inside > (count - i - 1) as u64 || !named(a, c, text, at) {
        return None;
    }
    Some((long as usize, inside as usize))
}

// Words 2 and 3 of record i are right for so many records.
fn sized(words: &[u64], i: usize, size: u64) -> bool
    requires { 4 * i + 4 ≤ length words.now }
    ensures { result ≡ sizes_right words.now i size }
{
    let a = words[4 * i];
    let c = words[4 * i + 2];
    if c != word2(a, c, size) {
        return false;
    }
    words[4 * i + 3] == word3(a, size)
}

// The record behind the value at record i.
pub fn after(words: &[u64], i: usize) -> usize
    requires i_in_bounds { 4 * i + 4 ≤ length words.now }
    requires size_in_bounds { i + size_at words.now i ≤ length words.now }
    ensures { result ≡ i + size_at words.now i }
{
    i + size(words[4 * i], words[4 * i + 2], words[4 * i + 3]) as usize
}

// The record behind an item, or behind an entry's key and value.
fn next(words: &[u64], i: usize, entry: usize) -> usize
    requires { ItemInside words.now entry i }
    ensures { result ≡ next_at words.now entry i }
{
    let behind = after(words, i);
    if entry == 1 {
        behind
    } else {
        after(words, behind)
    }
}

// The order of the values at records p and q. Most items and keys are Ints or Bytes: two of those need no walk.
fn compare_items(words: &[u64], text: &[u8], p: usize, q: usize) -> Ordering
    requires p_reads { Reads words.now text.now p }
    requires q_reads { Reads words.now text.now q }
    requires p_begins { Begins words.now text.now p }
    requires q_begins { Begins words.now text.now q }
    ensures { (v u : Value)
        → Stands words.now text.now p (one v)
        → Stands words.now text.now q (one u)
        → told result ≡ order v u }
{
    let kind = head_of(words[4 * p]).kind;
    if kind == head_of(words[4 * q]).kind {
        let (x, y) = (words[4 * p + 1], words[4 * q + 1]);
        if kind == KIND_I64 {
            return compare_ints(x, y);
        }
        if kind == KIND_BYTES {
            let m = words[4 * p + 2] as usize;
            let n = words[4 * q + 2] as usize;
            return compare_bytes(part(text, x as usize, m), part(text, y as usize, n));
        }
    }
    compare_at(words, p, text, words, q, text)
}

// The m values from record i on: items (entry 1), or keys with values (entry 2), strictly ascending.
fn ascends(words: &[u64], text: &[u8], i: usize, m: usize, entry: usize) -> bool
    requires held { Held words.now text.now i m }
    requires entry_nonzero { 1 ≤ entry }
    requires entry_bound { entry ≤ 2 }
    ensures { (f : Forest) → Stands words.now text.now i f → count_of f ≡ m → result ≡ ascending (picked entry f) }
{
    let mut p = i;
    let mut left = m;
    while left > entry {
        let q = next(words, p, entry);
        if !compare_items(words, text, p, q).is_lt() {
            return false;
        }
        p = q;
        left -= entry;
    }
    true
}

// The m values from record i on are in order, as a label with word 0 a wants them.
fn arranged(words: &[u64], text: &[u8], a: u64, i: usize, m: usize) -> bool
    requires held { Held words.now text.now i m }
    requires object_has_arguments { kind_in a ≡ 12 → 1 ≤ m }
    requires kind_bound { kind_in a < 13 }
    ensures { (f : Forest) → Stands words.now text.now i f → count_of f ≡ m → result ≡ arranged_by (kind_in a) f }
{
    match head_of(a).kind {
        KIND_SET | KIND_FROZEN_SET => ascends(words, text, i, m, 1),
        KIND_DICT => ascends(words, text, i, m, 2),
        KIND_OBJECT => head_of(words[4 * i]).kind == KIND_TUPLE,
        _ => true,
    }
}

// The record at i is right for the m values that stand behind it as far as record j.
fn closes(words: &[u64], text: &[u8], i: usize, j: usize, m: usize) -> bool
    requires i_in_bounds { 4 * i + 4 ≤ length words.now }
    requires i_le_j { i ≤ j }
    requires held { Held words.now text.now (i + 1) m }
    requires object_has_arguments { kind_in (word_at words.now i 0) ≡ 12 → 1 ≤ m }
    requires kind_bound { kind_in (word_at words.now i 0) < 13 }
    ensures { Closes words.now text.now i j m result }
{
    sized(words, i, (j - i) as u64) && arranged(words, text, words[4 * i], i + 1, m)
}

// A record with nothing in it, as it has to be in any table. What is answered of a value that stands somewhere is the record
// behind it and the place behind its text.
fn leaf(words: &[u64], text: &[u8], i: usize, at: usize) -> Option<(usize, usize)>
    requires i_in_bounds { 4 * i + 4 ≤ length words.now }
    requires at_in_bounds { at ≤ length text.now }
    requires text_len_bound { length text.now ≤ 65536 }
    requires holds_none { holding (kind_in (word_at words.now i 0)) ≡ false }
    ensures { LeafSays words.now text.now i at result }
{
    let a = words[4 * i];
    let b = words[4 * i + 1];
    let c = words[4 * i + 2];
    if a != word0(a) || b != word1(a, b, at as u64) {
        return None;
    }
    let long = span(a, c);
    if long > (text.len() - at) as u64 || !named(a, c, text, at) {
        return None;
    }
    // Only an Object's word 3 is not 0, and it has arguments.
    if c != word2(a, c, 1) || words[4 * i + 3] != 0 {
        return None;
    }
    Some((i + 1, at + long as usize))
}

// The value at record i, with its text at `at`, at most so many levels deep.
#[cycle(check)]
fn check(
    words: &[u64],
    count: usize,
    text: &[u8],
    i: usize,
    at: usize,
    levels: u64,
) -> Option<(usize, usize)>
    requires lent { Lent words.now count text.now }
    requires i_le_count { i ≤ count }
    requires at_in_bounds { at ≤ length text.now }
    ensures { result ≡ checked_of (find words.now count text.now levels i at) }
{
    if levels == 0 || i == count {
        return None;
    }
    if holds(head_of(words[4 * i]).kind) {
        return container(words, count, text, i, at, levels);
    }
    leaf(words, text, i, at)
}

// A record of a kind that holds values, and those in it.
#[cycle(check)]
fn container(
    words: &[u64],
    count: usize,
    text: &[u8],
    i: usize,
    at: usize,
    levels: u64,
) -> Option<(usize, usize)>
    requires lent { Lent words.now count text.now }
    requires i_lt_count { i < count }
    requires at_in_bounds { at ≤ length text.now }
    requires levels_nonzero { levels ≢ 0 }
    ensures { result ≡ checked_of (find words.now count text.now levels i at) }
{
    let (long, m) = head(words, count, text, i, at)?;
    let (j, end) = contents(words, count, text, i + 1, at + long, m, levels - 1)?;
    if closes(words, text, i, j, m) {
        Some((j, end))
    } else {
        None
    }
}

// The m values from record i on, one after the other.
#[cycle(check)]
fn contents(
    words: &[u64],
    count: usize,
    text: &[u8],
    i: usize,
    at: usize,
    m: usize,
    levels: u64,
) -> Option<(usize, usize)>
    requires lent { Lent words.now count text.now }
    requires i_le_count { i ≤ count }
    requires at_in_bounds { at ≤ length text.now }
    ensures { result ≡ checked_of (find_many (find words.now count text.now levels) m i at) }
{
    let (mut j, mut end) = (i, at);
    for _ in (0..m).rev() {
        (j, end) = check(words, count, text, j, end, levels)?;
    }
    Some((j, end))
}

// Whether a record has text.
fn has_text(a: u64) -> bool
    ensures { result ≡ has_text (kind_in a) }
{
    matches!(
        head_of(a).kind,
        KIND_BYTES | KIND_STRING | KIND_GLOBAL | KIND_OBJECT
    )
}

// Where the text of a record ends; of a wrong record, no more than a usize holds.
fn text_end(a: u64, b: u64, c: u64) -> usize
    ensures { result ≡ end_of a b c }
{
    b.saturating_add(span(a, c)) as usize
}

// The length of a table's text, which a reading does not return: where the last text of its records ends, or 0. A count past the
// words is held to them.
pub fn text_len(words: &[u64], count: usize) -> usize
    ensures { result ≡ text_length words.now count }
{
    let records = count.min(words.len() / 4);
    for i in (0..records).rev() {
        if has_text(words[4 * i]) {
            return text_end(words[4 * i], words[4 * i + 1], words[4 * i + 2]);
        }
    }
    0
}

// Whether these words, this count and this text are a table and its text, well formed by RULES A2.4.
pub fn well_formed(words: &[u64], count: usize, text: &[u8]) -> bool
    ensures { YesIff result (WellFormed words.now count text.now) }
{
    if count > 2048 || count > words.len() / 4 || text.len() > 65536 {
        return false;
    }
    contents(words, count, text, 0, 0, 1, 64) == Some((count, text.len()))
}

// What compare answers: number 0 and -1, 0 or 1; or why it refuses, and sign 0.
#[repr(C)]
#[derive(Clone, Copy)]
pub struct Compared {
    pub number: u64,
    pub detail: u64,
    pub sign: i64,
}

fn bad_table(which: Which) -> Compared
    ensures { result ≡ bad_table which }
{
    Compared {
        number: number(Refusal::BadTable(which)),
        detail: detail(Refusal::BadTable(which)),
        sign: 0,
    }
}

#[tactic(auto, unfolding(value::specs::Told::told))]
fn ordered(order: Ordering) -> Compared
    ensures { result ≡ ordered_by (told order) }
{
    let sign = match order {
        Ordering::Less => -1,
        Ordering::Equal => 0,
        Ordering::Greater => 1,
    };
    Compared {
        number: 0,
        detail: 0,
        sign,
    }
}

// The order of the values of two tables (RULES A2.5); the first table is looked at first.
pub fn compare(
    first: &[u64],
    first_count: usize,
    first_text: &[u8],
    second: &[u64],
    second_count: usize,
    second_text: &[u8],
) -> Compared
    ensures { Compares
        first.now first_count first_text.now
        second.now second_count second_text.now result }
{
    if !well_formed(first, first_count, first_text) {
        return bad_table(Which::First);
    }
    if !well_formed(second, second_count, second_text) {
        return bad_table(Which::Second);
    }
    ordered(compare_at(first, 0, first_text, second, 0, second_text))
}

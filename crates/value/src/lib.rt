// Values (value.rs): the words of a table's record, and the order of values that stand in tables. `Display`, the `From`
// conversions, `Value::dict` and `Value::object` are left out.
#![tactic(auto)]

ghost use Rattle.std.specs.Prelude.{◌≡◌, true, length, take, drop};
ghost use Prim.Native.Nat.{◌+◌, ◌*◌, ◌^◌, ◌≤◌, ◌<◌, compare};
ghost use Rattle.value.specs.Value.{Value, one};
ghost use Rattle.value.specs.Order.{◌then◌, lex, by_value, total_order, labels, order};
ghost use Rattle.value.specs.Shape.{head_of, word_of, holding, names_end, module_part, name_part};
ghost use Rattle.value.specs.Stands.{label_at, arity_at, Reads, Begins, Stands};
ghost use Rattle.value.specs.Told.{told, float_rank};
ghost use Rattle.value.specs.Left.{new_at, Matched, NextToCompare};

use std::cmp::Ordering;

// The kinds of values, as word 0 has them (RULES A2.2); in the order of kinds (A2.5), which their tests by `<` rest on.
pub const KIND_NONE: u64 = 0;

pub const KIND_BOOL: u64 = 1;

pub const KIND_I64: u64 = 2;

pub const KIND_F64: u64 = 3;

pub const KIND_BYTES: u64 = 4;

pub const KIND_STRING: u64 = 5;

pub const KIND_LIST: u64 = 6;

pub const KIND_TUPLE: u64 = 7;

pub const KIND_SET: u64 = 8;

pub const KIND_FROZEN_SET: u64 = 9;

pub const KIND_DICT: u64 = 10;

pub const KIND_GLOBAL: u64 = 11;

pub const KIND_OBJECT: u64 = 12;

// The kinds have the numbers below this one.
pub const KINDS: u64 = 13;

// What word 0 of a record says. Only `head_of` reads that word and only `word_of` makes it.
#[derive(Clone, Copy)]
pub struct Head {
    pub kind: u64,
    pub new: bool,
    pub state: bool,
}

pub fn head_of(word: u64) -> Head
    ensures { result ≡ head_of word }
{
    Head {
        kind: word % 16,
        new: word / 16 % 2 == 1,
        state: word / 32 % 2 == 1,
    }
}

pub fn word_of(head: Head) -> u64
    requires { head.kind < 16 }
    ensures { result ≡ word_of head }
{
    head.kind + 16 * u64::from(head.new) + 32 * u64::from(head.state)
}

// Whether values stand in a record of this kind.
pub fn holds(kind: u64) -> bool
    ensures { result ≡ holding kind }
{
    (KIND_STRING < kind) & (kind != KIND_GLOBAL)
}

pub fn compare_numbers(x: u64, y: u64) -> Ordering
    ensures { told result ≡ compare x y }
{
    x.cmp(&y)
}

// Integers by value, from their 64 bits.
pub fn compare_ints(x: u64, y: u64) -> Ordering
    ensures { told result ≡ lex (by_value x) (by_value y) }
{
    x.cast_signed().cmp(&y.cast_signed())
}

// Floats by totalOrder, from their 64 bits.
pub fn compare_floats(x: u64, y: u64) -> Ordering
    ensures { told result ≡ lex (total_order x) (total_order y) }
{
    float_rank(x).cmp(&float_rank(y))
}

// Below the sign bit the patterns are in order, the negative ones the other way round.
fn float_rank(bits: u64) -> u64
    ensures { result ≡ float_rank bits }
{
    if bits < 0x8000_0000_0000_0000 {
        bits + 0x8000_0000_0000_0000
    } else {
        u64::MAX - bits
    }
}

// Text by bytes, a proper beginning before the longer.
pub fn compare_bytes(a: &[u8], b: &[u8]) -> Ordering
    ensures { told result ≡ lex a.now b.now }
{
    a.cmp(b)
}

pub fn part(text: &[u8], at: usize, len: usize) -> &[u8]
    requires { at + len ≤ length text.now }
    ensures { result.now ≡ take len (drop at text.now) }
{
    &text[at..at + len]
}

// `len` bytes from `at` on, as far as there are any.
pub fn cut(text: &[u8], at: u64, len: u64) -> &[u8]
    ensures { result.now ≡ take len (drop at text.now) }
{
    let rest = &text[text.len().min(at as usize)..];
    &rest[..rest.len().min(len as usize)]
}

// A module and a name that stand one after the other. A word holds both lengths.
fn names(text: &[u8], at: usize, lens: u64) -> (&[u8], &[u8])
    requires { names_end at lens ≤ length text.now }
    ensures module { result.0.now ≡ module_part lens (drop at text.now) }
    ensures name { result.1.now ≡ name_part lens (drop at text.now) }
{
    let m = (lens / 0x1_0000_0000) as usize;
    let n = (lens % 0x1_0000_0000) as usize;
    (part(text, at, m), part(text, at + m, n))
}

// Two names: by module, then by name.
fn compare_names(s: &[u8], x: usize, p: u64, t: &[u8], y: usize, q: u64) -> Ordering
    requires p_in_bounds { names_end x p ≤ length s.now }
    requires q_in_bounds { names_end y q ≤ length t.now }
    ensures { told result
        ≡ (lex (module_part p (drop x s.now)) (module_part q (drop y t.now))
        then lex (name_part p (drop x s.now)) (name_part q (drop y t.now))) }
{
    let (module, name) = names(s, x, p);
    let (other_module, other_name) = names(t, y, q);
    compare_bytes(module, other_module).then_with(|| compare_bytes(name, other_name))
}

// Two records but for their contents.
fn compare_labels(a: &[u64], i: usize, s: &[u8], b: &[u64], j: usize, t: &[u8]) -> Ordering
    requires a_reads { Reads a.now s.now i }
    requires b_reads { Reads b.now t.now j }
    ensures { told result ≡ labels (label_at a.now s.now i) (label_at b.now t.now j) }
{
    let kind = head_of(a[4 * i]).kind;
    let other = head_of(b[4 * j]).kind;
    if kind != other {
        return kind.cmp(&other);
    }
    let (x, y) = (a[4 * i + 1], b[4 * j + 1]);
    let (p, q) = (a[4 * i + 2], b[4 * j + 2]);
    match kind {
        KIND_BOOL => (x == 1).cmp(&(y == 1)),
        KIND_I64 => compare_ints(x, y),
        KIND_F64 => compare_floats(x, y),
        KIND_BYTES | KIND_STRING => compare_bytes(
            part(s, x as usize, p as usize),
            part(t, y as usize, q as usize),
        ),
        KIND_GLOBAL | KIND_OBJECT => compare_names(s, x as usize, p, t, y as usize, q),
        _ => Ordering::Equal,
    }
}

// How many values stand directly in a record.
pub fn arity(words: &[u64], i: usize) -> usize
    requires i_in_bounds { 4 * i + 4 ≤ length words.now }
    requires arity_bound { arity_at words.now i ≤ length words.now }
    ensures { result ≡ arity_at words.now i }
{
    let head = head_of(words[4 * i]);
    let n = words[4 * i + 1] as usize;
    match head.kind {
        KIND_LIST..=KIND_FROZEN_SET => n,
        KIND_DICT => n + n,
        KIND_OBJECT => 1 + usize::from(head.state),
        _ => 0,
    }
}

// Whether a record is of an Object that is `new`.
fn is_new(words: &[u64], i: usize) -> bool
    requires { 4 * i + 4 ≤ length words.now }
    ensures { result ≡ new_at words.now i }
{
    let head = head_of(words[4 * i]);
    head.kind == KIND_OBJECT && head.new
}

// What is left to compare: so many values, and what decides if they are equal.
#[derive(Clone, Copy)]
struct Walk {
    left: usize,
    verdict: Ordering,
}

// After two records with equal labels, n and m values directly in them.
fn next(walk: Walk, n: usize, m: usize, new: bool, other: bool) -> Walk
    requires { (0 < walk.left) × (walk.left + n < 2 ^ 64) }
    ensures { NextToCompare walk.left (told walk.verdict) n m new other result.left (told result.verdict) }
{
    if new != other {
        return Walk {
            left: 1,
            verdict: new.cmp(&other),
        };
    }
    if n != m {
        return Walk {
            left: n.min(m),
            verdict: n.cmp(&m),
        };
    }
    Walk {
        left: walk.left - 1 + n,
        verdict: walk.verdict,
    }
}

// After two records of one kind with equal labels: most have nothing in them.
fn step(walk: Walk, a: &[u64], k: usize, b: &[u64], l: usize) -> Walk
    requires { Matched a.now b.now k l walk.left }
    ensures { NextToCompare walk.left (told walk.verdict)
        (arity_at a.now k) (arity_at b.now l) (new_at a.now k) (new_at b.now l)
        result.left (told result.verdict) }
{
    if holds(head_of(a[4 * k]).kind) {
        return next(walk, arity(a, k), arity(b, l), is_new(a, k), is_new(b, l));
    }
    Walk {
        left: walk.left - 1,
        verdict: walk.verdict,
    }
}

// The order of the value that begins at record i of one table and the one at record j of another (or the same), by a walk
// through both at once.
pub fn compare_at(a: &[u64], i: usize, s: &[u8], b: &[u64], j: usize, t: &[u8]) -> Ordering
    requires a_begins { Begins a.now s.now i }
    requires b_begins { Begins b.now t.now j }
    ensures { (v w : Value)
        → Stands a.now s.now i (one v)
        → Stands b.now t.now j (one w)
        → told result ≡ order v w }
{
    let mut walk = Walk {
        left: 1,
        verdict: Ordering::Equal,
    };
    let (mut k, mut l) = (i, j);
    while walk.left > 0 {
        let order = compare_labels(a, k, s, b, l, t);
        if order.is_ne() {
            return order;
        }
        walk = step(walk, a, k, b, l);
        k += 1;
        l += 1;
    }
    walk.verdict
}

// The score of a sheet (RULES, Ask 3), from the table that a reading gave. It stands on the reader's promises about tables: that
// `well_formed` decides, and what a well-formed table says.
#![tactic(auto)]

ghost use Rattle.std.specs.Prelude.{◌≡◌, ◌+◌, ◌*◌, ◌≤◌, ◌<◌, length};
ghost use Rattle.refusal.specs.Numbers.{number_of};
ghost use Rattle.value.specs.Stands.{label_at, Reads};
ghost use Rattle.scorer.specs.Sheet.{is_key, counted as counted_as};
ghost use Rattle.scorer.specs.Steps.{between_at, hit_at, Tabled, Lain, Seeks, Both, AddsUp};
ghost use Rattle.scorer.specs.Call.{unscored, Assesses, Scores};

use refusal::{Refusal, Which, detail, number};
use table::{after, well_formed};
use value::{KIND_BOOL, KIND_BYTES, KIND_DICT, KIND_I64, KIND_SET, head_of, part};

// Number 0, the score and how many items were answered; or why there is no score, and 0, 0.
#[repr(C)]
#[derive(Clone, Copy)]
pub struct Scored {
    pub number: u64,
    pub detail: u64,
    pub score: u64,
    pub items: u64,
}

// Record i is the Bytes `name`.
fn is_key(words: &[u64], text: &[u8], i: usize, name: &[u8]) -> bool
    requires { Reads words.now text.now i }
    ensures { result ≡ is_key name.now (label_at words.now text.now i) }
{
    if head_of(words[4 * i]).kind != KIND_BYTES {
        return false;
    }
    let at = words[4 * i + 1];
    let length = words[4 * i + 2];
    name == part(text, at as usize, length as usize)
}

// The record of the value under a key, among so many entries from record 1 on, if it is of that kind.
fn seek(words: &[u64], text: &[u8], entries: u64, name: &[u8], kind: u64) -> Option<usize>
    requires lain { Lain words.now text.now 1 (entries + entries) }
    requires kind_nonzero { 0 < kind }
    ensures { Seeks words.now text.now (entries + entries) name.now kind result }
{
    let mut i = 1;
    for _ in 0..entries {
        let at = after(words, i);
        if is_key(words, text, i, name) {
            return (head_of(words[4 * at]).kind == kind).then_some(at);
        }
        i = after(words, at);
    }
    None
}

// Record i is an I64 from low to high.
fn is_between(words: &[u64], i: usize, low: u64, high: u64) -> bool
    requires { 4 * i + 4 ≤ length words.now }
    ensures { result ≡ between_at words.now i low high }
{
    if head_of(words[4 * i]).kind != KIND_I64 {
        return false;
    }
    let value = words[4 * i + 1];
    low <= value && value <= high
}

// Items are left, and the next one, at record j, is this one.
fn hit(words: &[u64], j: usize, left: u64, item: u64) -> bool
    requires { 0 < left → 4 * j + 4 ≤ length words.now }
    ensures { result ≡ hit_at words.now j left item }
{
    if left == 0 {
        return false;
    }
    head_of(words[4 * j]).kind == KIND_I64 && item == words[4 * j + 1]
}

// What an answer counts.
fn counted(max: u64, flipped: bool, reversed: bool, answer: u64) -> u64
    requires { answer ≤ max }
    ensures value { result ≡ counted_as max flipped reversed answer }
    ensures upper_bound { result ≤ max }
{
    if reversed && !flipped {
        max - answer
    } else {
        answer
    }
}

// The score and the number of items, from the answers from record `from` on and the reversed items from record `first` on,
// which both ascend: a walk through both at once.
fn tally_answers(
    words: &[u64],
    from: usize,
    entries: u64,
    first: usize,
    items: u64,
    max: u64,
    flipped: bool,
) -> Option<(u64, u64)>
    requires both { Both words.now from entries first items }
    requires max_bound { max ≤ 100 }
    requires entries_bound { entries ≤ 4096 }
    ensures { AddsUp words.now from entries first items max flipped result }
{
    let (mut i, mut j) = (from, first);
    let mut rest = items;
    let mut score = 0;
    for _ in 0..entries {
        let k = i + 1;
        if !is_between(words, i, 1, 200) || !is_between(words, k, 0, max) {
            return None;
        }
        let reversed = hit(words, j, rest, words[4 * i + 1]);
        score += counted(max, flipped, reversed, words[4 * k + 1]);
        i += 2;
        j += usize::from(reversed);
        rest -= u64::from(reversed);
    }
    if rest > 0 {
        return None;
    }
    Some((score, entries))
}

// The value of a well-formed table: its score and its items, if it is a sheet.
fn assess(words: &[u64], text: &[u8]) -> Option<(u64, u64)>
    requires { Tabled words.now text.now }
    ensures { Assesses words.now text.now result }
{
    if head_of(words[0]).kind != KIND_DICT {
        return None;
    }
    let entries = words[1];
    let answers = seek(words, text, entries, b"answers", KIND_DICT)?;
    let reverse = seek(words, text, entries, b"reverse", KIND_SET)?;
    let flipped = seek(words, text, entries, b"flipped", KIND_BOOL)?;
    let highest = seek(words, text, entries, b"max", KIND_I64)?;
    if !is_between(words, highest, 1, 100) {
        return None;
    }
    let max = words[4 * highest + 1];
    let mark = words[4 * flipped + 1] == 1;
    tally_answers(
        words,
        answers + 1,
        words[4 * answers + 1],
        reverse + 1,
        words[4 * reverse + 1],
        max,
        mark,
    )
}

fn refused(why: Refusal) -> Scored
    ensures { result ≡ unscored (number_of why) }
{
    Scored {
        number: number(why),
        detail: detail(why),
        score: 0,
        items: 0,
    }
}

// The score of the sheet that a table is of: BadTable, then SheetShape, else its score and items.
pub fn score(words: &[u64], count: usize, text: &[u8]) -> Scored
    ensures { Scores words.now count text.now result }
{
    if !well_formed(words, count, text) {
        return refused(Refusal::BadTable(Which::First));
    }
    match assess(words, text) {
        None => refused(Refusal::SheetShape),
        Some((score, items)) => Scored {
            number: 0,
            detail: 0,
            score,
            items,
        },
    }
}

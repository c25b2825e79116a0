// Replays readings. Standard input has cases: a byte, 1 for whole data and 0 for a prefix; the pickle's length in four bytes, low byte first;
// the pickle. For each a line has the answer: number, detail, length and count, and after a success the words of the records and the
// text, in hex. Every element of the rooms and outputs is lent with a mark in it, another one for each case: the line ends with `dirty` where
// a room is not all zero after the reading, and with `spilled` where an output has changed behind what the reading filled.
#![tactic(auto)]

use op::Edition;
use refusal::Answer;
use rooms::lending::Lent;

// Whether a part of what was lent has nothing but this value.
fn has_only<T: PartialEq + Copy>(part: &[T], value: T) -> bool {
    part.iter().all(|x| *x == value)
}

// A room must be zero.
fn show_dirty<T: PartialEq + Copy>(room: &[T], zero: T) {
    if !has_only(room, zero) {
        io::write_all(1, b"\tdirty");
    }
}

// An output must have the mark behind what was filled.
fn show_spilled<T: PartialEq + Copy>(output: &[T], filled: usize, mark: T) {
    if !has_only(&output[filled.min(output.len())..], mark) {
        io::write_all(1, b"\tspilled");
    }
}

// The words of so many records, of which a table has 2,048 at most.
fn words_in(count: u64) -> usize {
    4 * count.min(2048) as usize
}

// The answer, and what it says is filled; then what is blamed on the outputs.
fn show(answer: Answer, table: &[u64], text: &[u8], mark: u8, mark64: u64) {
    io::print_decimal(1, answer.number);
    console::tab();
    io::print_decimal(1, answer.detail);
    console::tab();
    io::print_decimal(1, answer.length);
    console::tab();
    io::print_decimal(1, answer.count);
    let words = words_in(answer.count);
    let bytes = table::text_len(table, answer.count as usize);
    if answer.number == 0 {
        console::tab();
        console::show_hex(console::first(table, words), 16);
        console::tab();
        console::show_hex(console::first(text, bytes), 2);
    }
    show_spilled(table, words, mark64);
    show_spilled(text, bytes, mark);
}

// A case, in a line, with the mark in every byte of what is lent.
fn replay(whole: bool, pickle: &[u8], mark: u8) {
    let mark16 = mark as u16 * 0x101;
    let mark32 = mark as u32 * 0x1010101;
    let mark64 = mark as u64 * 0x101010101010101;
    let mut nodes = [mark64; 8192];
    let mut owners = [mark16; 8192];
    let mut children = [mark16; 8192];
    let mut stack = [mark16; 2048];
    let mut marks = [mark16; 256];
    let mut keys = [mark32; 2048];
    let mut held = [mark16; 1024];
    let mut unescaped = [mark; 65536];
    let mut starts = [mark16; 4098];
    let mut sorted = [mark16; 16384];
    let mut measures = [mark64; 4096];
    let mut table = [mark64; 8192];
    let mut text = [mark; 65536];
    let mut lent = Lent {
        nodes: &mut nodes,
        owners: &mut owners,
        children: &mut children,
        stack: &mut stack,
        marks: &mut marks,
        keys: &mut keys,
        held: &mut held,
        unescaped: &mut unescaped,
        starts: &mut starts,
        sorted: &mut sorted,
        measures: &mut measures,
        table: &mut table,
        text: &mut text,
    };
    let answer = de::reading(Edition::Full, whole, pickle, &mut lent);
    show(answer, &table, &text, mark, mark64);
    show_dirty(&nodes, 0);
    show_dirty(&owners, 0);
    show_dirty(&children, 0);
    show_dirty(&stack, 0);
    show_dirty(&marks, 0);
    show_dirty(&keys, 0);
    show_dirty(&held, 0);
    show_dirty(&unescaped, 0);
    show_dirty(&starts, 0);
    show_dirty(&sorted, 0);
    show_dirty(&measures, 0);
    io::write_all(1, b"\n");
}

// One case; false at the end of the input.
fn one(room: &mut [u8], mark: u8) -> bool {
    let mut head = [0u8; 5];
    if io::read_full(0, &mut head) < 5 {
        return false;
    }
    let n = input::u32_at(&head, 1) as usize;
    if room.len() < n {
        return false;
    }
    if io::read_full(0, &mut room[0..n]) < n {
        return false;
    }
    replay(head[0] == 1, &room[0..n], mark);
    true
}

// A million cases at most, with marks that are never zero.
fn all(room: &mut [u8]) {
    for i in 0..1_000_000usize {
        if !one(room, (i % 255 + 1) as u8) {
            return;
        }
    }
}

fn main() {
    let mut room = [0u8; 65537];
    all(&mut room);
}

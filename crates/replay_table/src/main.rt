// Replays the calls on tables. Standard input has requests: eight numbers of four bytes, low byte first (1 compare, 2 list, 3 write or 4 score; words,
// count and text length of one table; the same of another; the output's length), then the tables' words, high byte first, and
// texts. For each a line has the answer, of list and write with the number of bytes changed behind its length;
// after one of these that succeeds its output follows.
#![tactic(auto)]

ghost use Rattle.std.specs.Prelude.{◌≡◌, ◌+◌, ◌*◌, ◌≤◌, length};

use refusal::Answer;
use std::cmp::Ordering;
use table::Compared;

// The calls on tables, each by its number in a request.
#[derive(Clone, Copy)]
enum Call {
    Compare,
    List,
    Write,
    Score,
}

impl From<u32> for Call {
    fn from(number: u32) -> Call {
        match number {
            1 => Call::Compare,
            3 => Call::Write,
            4 => Call::Score,
            _ => Call::List,
        }
    }
}

// How many words a table has, how many records, and how long its text is.
#[derive(Clone, Copy)]
struct Sizes {
    words: u32,
    count: u32,
    text: u32,
}

impl Sizes {
    // How many bytes of a request have the table.
    fn bytes(self) -> usize
        ensures { result ≡ 8 * self.words + self.text }
    {
        8 * self.words as usize + self.text as usize
    }
}

#[derive(Clone, Copy)]
struct Table<'a> {
    words: &'a [u64],
    count: usize,
    text: &'a [u8],
}

fn show_compare(compared: Compared) {
    io::print_decimal(1, compared.number);
    console::tab();
    io::print_decimal(1, compared.detail);
    console::tab();
    match compared.sign.cmp(&0) {
        Ordering::Less => io::write_all(1, b"-1"),
        Ordering::Equal => io::write_all(1, b"0"),
        Ordering::Greater => io::write_all(1, b"1"),
    };
    io::write_all(1, b"\n");
}

// A mark in every byte, to see which ones a call changes.
const MARK: u8 = 0x55;

// How many bytes have lost the mark.
fn changed(output: &[u8]) -> usize
    ensures { result ≤ length output.now }
{
    output.iter().filter(|byte| **byte != MARK).count()
}

// The answer of a call that has filled an output with the mark in it, and what it filled.
fn show_filled(answer: Answer, output: &[u8]) {
    io::print_decimal(1, answer.number);
    console::tab();
    io::print_decimal(1, answer.detail);
    console::tab();
    io::print_decimal(1, answer.length);
    console::tab();
    io::print_decimal(1, answer.count);
    console::tab();
    let n = answer.length as usize;
    io::print_decimal(1, changed(&output[n.min(output.len())..]) as u64);
    io::write_all(1, b"\n");
    if n <= output.len() {
        io::write_all(1, &output[..n]);
    }
}

fn show_list(table: Table<'_>, output: &mut [u8]) {
    output.fill(MARK);
    let answer = list::list_table(table.words, table.count, table.text, output);
    show_filled(answer, output);
}

fn show_write(table: Table<'_>, output: &mut [u8]) {
    output.fill(MARK);
    let answer = ser::to_bytes(table.words, table.count, table.text, output);
    show_filled(answer, output);
}

fn show_score(table: Table<'_>) {
    let scored = scorer::score(table.words, table.count, table.text);
    io::print_decimal(1, scored.number);
    console::tab();
    io::print_decimal(1, scored.detail);
    console::tab();
    io::print_decimal(1, scored.score);
    console::tab();
    io::print_decimal(1, scored.items);
    io::write_all(1, b"\n");
}

// What a request says: which call, and the sizes.
#[derive(Clone, Copy)]
struct Request {
    call: Call,
    first: Sizes,
    second: Sizes,
    output: usize,
}

fn sizes_at(head: &[u8; 32], at: usize) -> Sizes
    requires { at ≤ 20 }
{
    Sizes {
        words: input::u32_at(head, at),
        count: input::u32_at(head, at + 4),
        text: input::u32_at(head, at + 8),
    }
}

fn asked(head: &[u8; 32]) -> Request {
    Request {
        call: Call::from(input::u32_at(head, 0)),
        first: sizes_at(head, 4),
        second: sizes_at(head, 16),
        output: input::u32_at(head, 28) as usize,
    }
}

// The words that stand in bytes, high byte first.
fn fill(words: &mut [u64], bytes: &[u8]) {
    for (word, eight) in words.iter_mut().zip(bytes.chunks_exact(8)) {
        *word = input::f64_at(eight, 0);
    }
}

// The table that stands at the front of bytes, if it has room for its words.
fn table_of<'a>(sizes: Sizes, bytes: &'a [u8], room: &'a mut [u64]) -> Option<Table<'a>> {
    let (words, rest) = bytes.split_at_checked(8 * sizes.words as usize)?;
    let (text, _) = rest.split_at_checked(sizes.text as usize)?;
    let filled = room.get_mut(..sizes.words as usize)?;
    fill(filled, words);
    Some(Table {
        words: filled,
        count: sizes.count as usize,
        text,
    })
}

fn compare(first: Table<'_>, second: Table<'_>) {
    show_compare(table::compare(
        first.words,
        first.count,
        first.text,
        second.words,
        second.count,
        second.text,
    ));
}

// The calls on one table; a score asks for the output's room too.
fn show_output(call: Call, table: Table<'_>, output: &mut [u8]) {
    match call {
        Call::Score => show_score(table),
        Call::Write => show_write(table, output),
        _ => show_list(table, output),
    }
}

// What is asked of the tables in bytes; nothing where a room is too small.
fn answer(
    r: Request,
    bytes: &[u8],
    first: &mut [u64],
    second: &mut [u64],
    output: &mut [u8],
) -> Option<()> {
    let table = table_of(r.first, bytes, first)?;
    if let Call::Compare = r.call {
        let (_, behind) = bytes.split_at_checked(r.first.bytes())?;
        compare(table, table_of(r.second, behind, second)?);
    } else {
        show_output(r.call, table, output.get_mut(..r.output)?);
    }
    Some(())
}

// One request; none at the end of the input, or where it is too large.
fn one(bytes: &mut [u8], first: &mut [u64], second: &mut [u64], output: &mut [u8]) -> Option<()> {
    let mut head = [0u8; 32];
    if io::read_full(0, &mut head) < 32 {
        return None;
    }
    let r = asked(&head);
    let given = bytes.get_mut(..r.first.bytes() + r.second.bytes())?;
    if io::read_full(0, given) < given.len() {
        return None;
    }
    answer(r, given, first, second, output);
    Some(())
}

// A million requests at most.
fn all(bytes: &mut [u8], first: &mut [u64], second: &mut [u64], output: &mut [u8]) -> Option<()> {
    for _ in 0..1_000_000 {
        one(bytes, first, second, output)?;
    }
    Some(())
}

fn main() {
    let mut bytes = [0u8; 400000];
    let mut first = [0u64; 8448];
    let mut second = [0u64; 8448];
    let mut output = [0u8; 400000];
    all(&mut bytes, &mut first, &mut second, &mut output);
}

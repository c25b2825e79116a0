// Checks a night's sheets, each read as whole data: of each a line with number, detail, bytes read and records.
//
// Standard input has how many sheets there are, then the length of each, numbers of four bytes, low byte first; then the sheets, end to end.
// A night that is refused has only the line `refused`, its number and its detail: 1 where it has more than 1,024 sheets, 23 where the lengths
// are cut off or are not those of the bytes behind them, of which 524,288 are read at most.
//
// Started with a word, it reads plain data only (RULES, Ask 7.6): sheet by sheet, since the profile has no batch.
#![tactic(auto)]

ghost use Rattle.std.specs.Prelude.{◌≡◌, length};
ghost use Rattle.lengths.specs.Sum.{sum};

use lengths::add_up;
use op::Edition;
use refusal::{Answer, Refusal};
use rooms::lending::Lent;

// The sheets' answers, four places each.
fn check(sheets: &[u8], lengths: &[u64], answers: &mut [u64]) -> Answer {
    let mut nodes = [0u64; 8192];
    let mut owners = [0u16; 8192];
    let mut children = [0u16; 8192];
    let mut stack = [0u16; 2048];
    let mut marks = [0u16; 256];
    let mut keys = [0u32; 2048];
    let mut held = [0u16; 1024];
    let mut unescaped = [0u8; 65536];
    let mut starts = [0u16; 4098];
    let mut sorted = [0u16; 16384];
    let mut measures = [0u64; 4096];
    let mut table = [0u64; 8192];
    let mut text = [0u8; 65536];
    let mut lent = Lent {
        nodes: &mut nodes,
        owners: &mut owners,
        children: &mut children,
        stack: &mut stack,
        marks: &mut marks,
        keys: &mut keys,
        held: &mut held,
        unescaped: &mut unescaped,
        starts: &mut starts,
        sorted: &mut sorted,
        measures: &mut measures,
        table: &mut table,
        text: &mut text,
    };
    batch::from_bytes_batch(sheets, lengths, answers, &mut lent)
}

// The next number of the input, if it has one.
fn read_number() -> Option<u64> {
    let mut four = [0u8; 4];
    if io::read_full(0, &mut four) < 4 {
        return None;
    }
    Some(u32::from_le_bytes(four) as u64)
}

// The sheets' lengths, if the input has as many numbers.
fn read_lengths(lengths: &mut [u64]) -> Option<()> {
    for length in lengths.iter_mut() {
        *length = read_number()?;
    }
    Some(())
}

// A sheet's line.
fn show(answer: Answer) {
    io::print_decimal(1, answer.number);
    console::tab();
    io::print_decimal(1, answer.detail);
    console::tab();
    io::print_decimal(1, answer.length);
    console::tab();
    io::print_decimal(1, answer.count);
    io::write_all(1, b"\n");
}

// The lines of sheets whose answers have four places each.
fn show_all(answers: &[u64]) {
    for four in answers.chunks_exact(4) {
        show(Answer {
            number: four[0],
            detail: four[1],
            length: four[2],
            count: four[3],
        });
    }
}

// A sheet of plain data, by itself.
fn read_plain(sheet: &[u8]) -> Answer {
    let mut table = [0u64; 8192];
    let mut text = [0u8; 65536];
    de::read_in_own_rooms(Edition::Plain, sheet, &mut table, &mut text)
}

// The lines of sheets of plain data.
fn show_plain(sheets: &[u8], lengths: &[u64])
    requires { length sheets.now ≡ sum lengths.now }
{
    let mut rest = sheets;
    for length in lengths {
        let (sheet, behind) = rest.split_at(*length as usize);
        show(read_plain(sheet));
        rest = behind;
    }
}

// The night of plain data: no line before the lengths are right.
fn check_plain(sheets: &[u8], lengths: &[u64]) {
    if !add_up(lengths, sheets.len()) {
        console::refuse(Refusal::BadLengths);
        return;
    }
    show_plain(sheets, lengths);
}

// The night of as many sheets as lengths are lent, with four places for the answers to each.
fn check_night(edition: Edition, lengths: &mut [u64], answers: &mut [u64]) {
    let mut sheets = [0u8; 524288];
    let Some(()) = read_lengths(lengths) else {
        console::refuse(Refusal::BadLengths);
        return;
    };
    let n = io::read_full(0, &mut sheets);
    if let Edition::Plain = edition {
        check_plain(&sheets[0..n], lengths);
        return;
    }
    let checked = check(&sheets[0..n], lengths, answers);
    if checked.number != 0 {
        console::show_refusal(checked.number, checked.detail);
        return;
    }
    show_all(answers);
}

fn main(rt: HostRuntime) {
    let mut lengths = [0u64; 1024];
    let mut answers = [0u64; 4096];
    let Some(count) = read_number() else {
        console::refuse(Refusal::BadLengths);
        return;
    };
    if count > 1024 {
        console::refuse(Refusal::ShortRoom);
        return;
    }
    let n = count as usize;
    check_night(
        console::edition(&rt),
        &mut lengths[0..n],
        &mut answers[0..4 * n],
    );
}

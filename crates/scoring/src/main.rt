// Scores the sheet on standard input, a pickle that it reads as whole data: the line `score`, the score and how many items were answered;
// of a refusal, of the reading or of the scoring, the line `refused`, its number and its detail.
#![tactic(auto)]

use op::Edition;
use refusal::Answer;
use scorer::Scored;

fn show(scored: Scored) {
    io::write_all(1, b"score\t");
    io::print_decimal(1, scored.score);
    console::tab();
    io::print_decimal(1, scored.items);
    io::write_all(1, b"\n");
}

// The score of the table that was read.
fn score(read: Answer, table: &[u64], text: &[u8]) -> Scored {
    let count = read.count as usize;
    let n = table::text_len(table, count);
    scorer::score(table, count, console::first(text, n))
}

fn main() {
    let mut table = [0u64; 8192];
    let mut text = [0u8; 65536];
    let mut input = [0u8; 65537]; // a byte more than a pickle may have: enough to know that it is too long
    let n = io::read_full(0, &mut input);
    let pickle = console::first(&input, n);
    let read = de::read_in_own_rooms(Edition::Full, pickle, &mut table, &mut text);
    if read.number != 0 {
        console::show_refusal(read.number, read.detail);
        return;
    }
    let scored = score(read, &table, &text);
    if scored.number != 0 {
        console::show_refusal(scored.number, scored.detail);
        return;
    }
    show(scored);
}

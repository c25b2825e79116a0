// Writes the pickle on standard input, which it reads as whole data, anew: the bytes that the writer gives its value; of a refusal only the
// line `refused`, its number and its detail. The output is as long as the longest image.
#![tactic(auto)]

use op::Edition;

fn show(count: usize, table: &[u64], text: &[u8], output: &mut [u8]) {
    let n = table::text_len(table, count);
    let written = ser::to_bytes(table, count, console::first(text, n), output);
    if written.number != 0 {
        console::show_refusal(written.number, written.detail);
        return;
    }
    io::write_all(1, console::first(output, written.length as usize));
}

fn main() {
    let mut table = [0u64; 8192];
    let mut text = [0u8; 65536];
    let mut output = [0u8; 122883];
    let mut input = [0u8; 65537]; // a byte more than a pickle may have: enough to know that it is too long
    let n = io::read_full(0, &mut input);
    let pickle = console::first(&input, n);
    let read = de::read_in_own_rooms(Edition::Full, pickle, &mut table, &mut text);
    if read.number != 0 {
        console::show_refusal(read.number, read.detail);
        return;
    }
    show(read.count as usize, &table, &text, &mut output);
}

// Lists the pickle on standard input, which it reads as whole data: a header `value`, the bytes read and the records, then a line a record
// (RULES A9.4); of a refusal only the line `refused`, its number and its detail. Started with a word, it reads plain
// data only (RULES, Ask 7.6).
#![tactic(auto)]

use refusal::Answer;

fn show_header(read: Answer) {
    io::write_all(1, b"value\t");
    io::print_decimal(1, read.length);
    console::tab();
    io::print_decimal(1, read.count);
    io::write_all(1, b"\n");
}

// Nothing is printed before the list call has succeeded.
fn show(read: Answer, table: &[u64], text: &[u8], output: &mut [u8]) {
    let count = read.count as usize;
    let n = table::text_len(table, count);
    let listed = list::list_table(table, count, console::first(text, n), output);
    if listed.number != 0 {
        console::show_refusal(listed.number, listed.detail);
        return;
    }
    show_header(read);
    io::write_all(1, console::first(output, listed.length as usize));
}

fn main(rt: HostRuntime) {
    let mut table = [0u64; 8192];
    let mut text = [0u8; 65536];
    let mut output = [0u8; 65536];
    let mut input = [0u8; 65537]; // a byte more than a pickle may have: enough to know that it is too long
    let n = io::read_full(0, &mut input);
    let pickle = console::first(&input, n);
    let read = de::read_in_own_rooms(console::edition(&rt), pickle, &mut table, &mut text);
    if read.number != 0 {
        console::show_refusal(read.number, read.detail);
        return;
    }
    show(read, &table, &text, &mut output);
}

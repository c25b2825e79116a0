// What the programs that take pickles on standard input share: the edition that is asked for, the beginning of a buffer, and the line of a
// refusal.
#![tactic(auto)]

use op::Edition;
use refusal::Refusal;
use std::env::FillError;
use std::rt::Env;

// The edition to read in: that of plain data where the program was started with a word, whatever it is.
pub fn edition(rt: &impl Env) -> Edition {
    let mut word = [0u8; 1]; // a longer word does not fit, but is there
    match rt.arg(1, &mut word) {
        Err(FillError::NotPresent) => Edition::Full,
        _ => Edition::Plain,
    }
}

// The first n of these, or all where there are fewer.
pub fn first<T>(slice: &[T], n: usize) -> &[T] {
    &slice[..n.min(slice.len())]
}

pub fn tab() {
    io::write_all(1, b"\t");
}

pub fn show_refusal(number: u64, detail: u64) {
    io::write_all(1, b"refused\t");
    io::print_decimal(1, number);
    tab();
    io::print_decimal(1, detail);
    io::write_all(1, b"\n");
}

// The line of a refusal that the program itself meets.
pub fn refuse(why: Refusal) {
    show_refusal(refusal::number(why), refusal::detail(why));
}

// Numbers side by side, each in so many hex digits.
pub fn show_hex<T: Copy>(numbers: &[T], width: usize)
where
    u64: From<T>,
{
    for number in numbers {
        io::print_hex(1, u64::from(*number), width);
    }
}

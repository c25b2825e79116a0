// Replays literals: standard input has pickles of one literal and STOP, each after its length in two bytes, low byte first; for
// each a line says what the leaves read. The file stdout holds the Rust's answers.
#![tactic(auto)]

fn show_text(text: &[u8]) {
    if text.is_empty() {
        io::write_all(1, b"-");
    }
    console::show_hex(text, 2);
}

fn show(pickle: &[u8], room: &mut [u8]) {
    let found = probe::probe_literal(pickle, room);
    if found.number != 0 {
        io::write_all(1, b"refused\t");
        io::print_decimal(1, found.number);
        console::tab();
        io::print_decimal(1, found.detail);
        io::write_all(1, b"\n");
        return;
    }
    io::write_all(1, b"value\t");
    io::print_decimal(1, found.length);
    console::tab();
    io::print_decimal(1, found.kind);
    console::tab();
    io::print_hex(1, found.word, 16);
    console::tab();
    let n = found.text as usize;
    if n <= room.len() {
        show_text(&room[..n]);
    }
    io::write_all(1, b"\n");
}

// One case; false at the end of the input.
fn one(pickle: &mut [u8], room: &mut [u8]) -> bool {
    let mut size = [0u8; 2];
    if io::read_full(0, &mut size) < 2 {
        return false;
    }
    let n = input::u16_at(&size, 0) as usize;
    if pickle.len() < n {
        return false;
    }
    if n == 0 {
        show(&pickle[..0], room);
        return true;
    }
    if io::read_full(0, &mut pickle[..n]) < n {
        return false;
    }
    show(&pickle[..n], room);
    true
}

// A million cases at most.
fn all(pickle: &mut [u8], room: &mut [u8]) {
    for _ in 0..1_000_000usize {
        if !one(pickle, room) {
            return;
        }
    }
}

fn main() {
    let mut pickle = [0u8; 65536];
    let mut room = [0u8; 262144];
    all(&mut pickle, &mut room);
}

// Replays stored answers of the Rust: for each byte of standard input, taken as a pickle of that one byte, whether the Rust
// knows the opcode, or refuses it with number 4.
#![tactic(auto)]

use refusal::Refusal;

fn known(code: u8) -> bool {
    match code {
        op::STOP | op::PROTO | op::MARK | op::POP | op::POP_MARK | op::DUP => true,
        op::NONE | op::NEWTRUE | op::NEWFALSE => true,
        op::INT | op::BININT | op::BININT1 | op::BININT2 | op::LONG | op::LONG1 | op::LONG4 => true,
        op::FLOAT | op::BINFLOAT => true,
        op::STRING | op::BINSTRING | op::SHORT_BINSTRING | op::UNICODE | op::BINUNICODE => true,
        op::EMPTY_LIST | op::EMPTY_TUPLE | op::EMPTY_DICT | op::LIST | op::TUPLE => true,
        0x85..=0x87 => true,
        op::DICT | op::APPEND | op::APPENDS | op::SETITEM | op::SETITEMS => true,
        op::GET | op::BINGET | op::LONG_BINGET | op::PUT | op::BINPUT | op::LONG_BINPUT => true,
        op::GLOBAL | op::REDUCE | op::NEWOBJ | op::BUILD => true,
        _ => false,
    }
}

fn show(code: u8) {
    io::print_decimal(1, code as u64);
    if known(code) {
        io::write_all(1, b"\tknown\n");
        return;
    }
    io::write_all(1, b"\t");
    io::print_decimal(1, refusal::number(Refusal::UnsupportedOpcode(code)));
    io::write_all(1, b"\t");
    io::print_decimal(1, refusal::detail(Refusal::UnsupportedOpcode(code)));
    io::write_all(1, b"\n");
}

fn main() {
    let mut input = [0u8; 256];
    let n = io::read_full(0, &mut input);
    for code in input.iter().take(n) {
        show(*code);
    }
}

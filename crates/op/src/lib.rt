// The opcodes of protocols 0 to 2 (mod.rs's `op`), under the Rust's names and in its order. The `pickle!` macro is left out.
// specs/ has their table from pickletools, the decision over an opcode byte by it, and the editions of the reader.
#![tactic(auto)]

ghost use Rattle.std.specs.Prelude.{◌≡◌};
ghost use Rattle.op.specs.Table.{code_of};
ghost use Rattle.op.specs.Edition.{against, highest};

pub const MARK: u8 = b'(';

pub const STOP: u8 = b'.';

pub const POP: u8 = b'0';

pub const POP_MARK: u8 = b'1';

pub const DUP: u8 = b'2';

pub const FLOAT: u8 = b'F';

pub const INT: u8 = b'I';

pub const BININT: u8 = b'J';

pub const BININT1: u8 = b'K';

pub const LONG: u8 = b'L';

pub const BININT2: u8 = b'M';

pub const NONE: u8 = b'N';

pub const REDUCE: u8 = b'R';

pub const STRING: u8 = b'S';

pub const BINSTRING: u8 = b'T';

pub const SHORT_BINSTRING: u8 = b'U';

pub const UNICODE: u8 = b'V';

pub const BINUNICODE: u8 = b'X';

pub const APPEND: u8 = b'a';

pub const BUILD: u8 = b'b';

pub const GLOBAL: u8 = b'c';

pub const DICT: u8 = b'd';

pub const EMPTY_DICT: u8 = b'}';

pub const APPENDS: u8 = b'e';

pub const GET: u8 = b'g';

pub const BINGET: u8 = b'h';

pub const LONG_BINGET: u8 = b'j';

pub const LIST: u8 = b'l';

pub const EMPTY_LIST: u8 = b']';

pub const PUT: u8 = b'p';

pub const BINPUT: u8 = b'q';

pub const LONG_BINPUT: u8 = b'r';

pub const SETITEM: u8 = b's';

pub const TUPLE: u8 = b't';

pub const EMPTY_TUPLE: u8 = b')';

pub const SETITEMS: u8 = b'u';

pub const BINFLOAT: u8 = b'G';

pub const PROTO: u8 = 0x80;

pub const NEWOBJ: u8 = 0x81;

pub const TUPLE1: u8 = 0x85;

pub const TUPLE2: u8 = 0x86;

pub const TUPLE3: u8 = 0x87;

pub const NEWTRUE: u8 = 0x88;

pub const NEWFALSE: u8 = 0x89;

pub const LONG1: u8 = 0x8A;

pub const LONG4: u8 = 0x8B;

// The names as values, for definitions that go by cases on them.
#[derive(Clone, Copy)]
pub enum Opcode {
    MARK,
    STOP,
    POP,
    POP_MARK,
    DUP,
    FLOAT,
    INT,
    BININT,
    BININT1,
    LONG,
    BININT2,
    NONE,
    REDUCE,
    STRING,
    BINSTRING,
    SHORT_BINSTRING,
    UNICODE,
    BINUNICODE,
    APPEND,
    BUILD,
    GLOBAL,
    DICT,
    EMPTY_DICT,
    APPENDS,
    GET,
    BINGET,
    LONG_BINGET,
    LIST,
    EMPTY_LIST,
    PUT,
    BINPUT,
    LONG_BINPUT,
    SETITEM,
    TUPLE,
    EMPTY_TUPLE,
    SETITEMS,
    BINFLOAT,
    PROTO,
    NEWOBJ,
    TUPLE1,
    TUPLE2,
    TUPLE3,
    NEWTRUE,
    NEWFALSE,
    LONG1,
    LONG4,
}

// The number of a name: that of its row in the table, so that no constant above can stray from it.
#[tactic(auto, unfolding(crate::specs::Table::code_of, crate::specs::Table::number_in, crate::specs::Table::is_named, crate::specs::Table::place))]
pub fn number(name: Opcode) -> u8
    ensures { result ≡ code_of name }
{
    match name {
        Opcode::MARK => MARK,
        Opcode::STOP => STOP,
        Opcode::POP => POP,
        Opcode::POP_MARK => POP_MARK,
        Opcode::DUP => DUP,
        Opcode::FLOAT => FLOAT,
        Opcode::INT => INT,
        Opcode::BININT => BININT,
        Opcode::BININT1 => BININT1,
        Opcode::LONG => LONG,
        Opcode::BININT2 => BININT2,
        Opcode::NONE => NONE,
        Opcode::REDUCE => REDUCE,
        Opcode::STRING => STRING,
        Opcode::BINSTRING => BINSTRING,
        Opcode::SHORT_BINSTRING => SHORT_BINSTRING,
        Opcode::UNICODE => UNICODE,
        Opcode::BINUNICODE => BINUNICODE,
        Opcode::APPEND => APPEND,
        Opcode::BUILD => BUILD,
        Opcode::GLOBAL => GLOBAL,
        Opcode::DICT => DICT,
        Opcode::EMPTY_DICT => EMPTY_DICT,
        Opcode::APPENDS => APPENDS,
        Opcode::GET => GET,
        Opcode::BINGET => BINGET,
        Opcode::LONG_BINGET => LONG_BINGET,
        Opcode::LIST => LIST,
        Opcode::EMPTY_LIST => EMPTY_LIST,
        Opcode::PUT => PUT,
        Opcode::BINPUT => BINPUT,
        Opcode::LONG_BINPUT => LONG_BINPUT,
        Opcode::SETITEM => SETITEM,
        Opcode::TUPLE => TUPLE,
        Opcode::EMPTY_TUPLE => EMPTY_TUPLE,
        Opcode::SETITEMS => SETITEMS,
        Opcode::BINFLOAT => BINFLOAT,
        Opcode::PROTO => PROTO,
        Opcode::NEWOBJ => NEWOBJ,
        Opcode::TUPLE1 => TUPLE1,
        Opcode::TUPLE2 => TUPLE2,
        Opcode::TUPLE3 => TUPLE3,
        Opcode::NEWTRUE => NEWTRUE,
        Opcode::NEWFALSE => NEWFALSE,
        Opcode::LONG1 => LONG1,
        Opcode::LONG4 => LONG4,
    }
}

// Which reader: the full one, or the profile for plain data.
#[derive(Clone, Copy)]
pub enum Edition {
    Full,
    Plain,
}

// What an edition may have against an opcode's byte.
#[derive(Clone, Copy)]
pub enum Objection {
    Outside,
    Unknown,
}

#[tactic(auto, unfolding(crate::specs::Edition::against, crate::specs::Edition::outside, crate::specs::Edition::unknown, crate::specs::Edition::is_one_of, crate::specs::Table::code_of, crate::specs::Table::number_in, crate::specs::Table::is_named, crate::specs::Table::place))]
pub fn against(edition: Edition, code: u8) -> Option<Objection>
    ensures { result ≡ against edition code }
{
    match edition {
        Edition::Full => None,
        Edition::Plain => match code {
            GLOBAL | REDUCE | NEWOBJ | BUILD | PUT | GET => Some(Objection::Outside),
            _ => None,
        },
    }
}

// The highest protocol that PROTO accepts.
#[tactic(auto, unfolding(crate::specs::Edition::highest))]
pub fn highest(edition: Edition) -> u8
    ensures { result ≡ highest edition }
{
    match edition {
        Edition::Full => 2,
        Edition::Plain => 2,
    }
}

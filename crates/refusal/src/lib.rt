// Why a call refuses (`DeError` of de.rs, with the refusals that are added here), and what every public call answers.
// Below every other crate. An enum cannot be exported, so a call answers its number and detail.
#![tactic(auto)]

ghost use Rattle.std.specs.Prelude.{◌≡◌};
ghost use Rattle.refusal.specs.Numbers.{number_of, refused_answer};

// What an opcode found instead of the value that it needs: `DeError::Invalid`. Its detail is its number.
#[derive(Clone, Copy)]
pub enum Wanted {
    Length = 1,
    DictItems,
    List,
    Dict,
    Class,
    Arguments,
    Object,
}

// Which of a call's tables is meant, by its number.
#[derive(Clone, Copy)]
pub enum Which {
    First = 1,
    Second,
}

#[derive(Clone, Copy)]
pub enum Refusal {
    ShortRoom,
    TooLong,
    EndOfInput,
    UnsupportedOpcode(u8),
    UnsupportedProtocol(u8),
    StackUnderflow,
    MissingMemo(u32),
    InvalidLiteral,
    IntegerTooLarge,
    Invalid(Wanted),
    TrailingData,
    StackFull,
    MarksFull,
    MemoFull,
    NodesFull,
    LinksFull,
    TooDeep,
    TooManyValues,
    TextFull,
    FloatOutside,
    BadTable(Which),
    OutputFull,
    BadLengths,
    SheetShape,
    UnwritableName,
    OutsideProfile(u8),
}

// Number 0 is success. `length`: bytes read or written; `count`: a reading's records.
#[repr(C)]
#[derive(Clone, Copy)]
pub struct Answer {
    pub number: u64,
    pub detail: u64,
    pub length: u64,
    pub count: u64,
}

// Number and detail, as the rules have them.
fn number_of(why: Refusal) -> (u64, u64)
    ensures { result ≡ number_of why }
{
    match why {
        Refusal::ShortRoom => (1, 0),
        Refusal::TooLong => (2, 0),
        Refusal::EndOfInput => (3, 0),
        Refusal::UnsupportedOpcode(code) => (4, code as u64),
        Refusal::UnsupportedProtocol(proto) => (5, proto as u64),
        Refusal::StackUnderflow => (6, 0),
        Refusal::MissingMemo(index) => (7, index as u64),
        Refusal::InvalidLiteral => (8, 0),
        Refusal::IntegerTooLarge => (9, 0),
        Refusal::Invalid(what) => (10, what as u64),
        Refusal::TrailingData => (11, 0),
        Refusal::StackFull => (12, 0),
        Refusal::MarksFull => (13, 0),
        Refusal::MemoFull => (14, 0),
        Refusal::NodesFull => (15, 0),
        Refusal::LinksFull => (16, 0),
        Refusal::TooDeep => (17, 0),
        Refusal::TooManyValues => (18, 0),
        Refusal::TextFull => (19, 0),
        Refusal::FloatOutside => (20, 0),
        Refusal::BadTable(which) => (21, which as u64),
        Refusal::OutputFull => (22, 0),
        Refusal::BadLengths => (23, 0),
        Refusal::SheetShape => (24, 0),
        Refusal::UnwritableName => (25, 0),
        Refusal::OutsideProfile(code) => (26, code as u64),
    }
}

pub fn number(why: Refusal) -> u64
    ensures { result ≡ (number_of why).0 }
{
    number_of(why).0
}

pub fn detail(why: Refusal) -> u64
    ensures { result ≡ (number_of why).1 }
{
    number_of(why).1
}

// The answer of a call that refuses.
pub fn refused(why: Refusal) -> Answer
    ensures { result ≡ refused_answer why }
{
    let (number, detail) = number_of(why);
    Answer {
        number,
        detail,
        length: 0,
        count: 0,
    }
}

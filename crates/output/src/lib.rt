// Bytes put into a lent output that has room for them: a byte, a run of bytes, the text of a number. Each function writes from `at`
// on and answers the next place. The calls that write a table's value (crates list and ser) rest on this one; they measure first.
#![tactic(auto)]

ghost use Rattle.std.specs.Prelude.{◌≡◌, [], ◌∷◌, ◌≤◌, ◌<◌, length};
ghost use Rattle.output.specs.Decimal.{figure, figures, decimal_text, signed_text};
ghost use Rattle.output.specs.Put.{Put, Room};

// The next record of the table that is written and the next place of the output.
#[derive(Drop)]
pub struct Place {
    pub record: usize,
    pub at: usize,
}

pub fn put_byte(byte: u8, output: &mut [u8], at: usize) -> usize
    requires { Room output.old at (byte ∷ []) }
    ensures { Put output.old at (byte ∷ []) output.new result }
{
    output[at] = byte;
    at + 1
}

pub fn put_run(run: &[u8], output: &mut [u8], at: usize) -> usize
    requires { Room output.old at run.now }
    ensures { Put output.old at run.now output.new result }
{
    let end = at + run.len();
    output[at..end].copy_from_slice(run);
    end
}

#[tactic(auto, unfolding(crate::specs::Decimal::figure))]
fn digit(value: u64) -> u8
    requires { value < 16 }
    ensures { result ≡ figure value }
{
    if value < 10 {
        b'0' + value as u8
    } else {
        b'a' - 10 + value as u8
    }
}

// The last `count` digits of a number, the last one first.
pub fn put_figures(n: u64, base: u64, count: usize, output: &mut [u8], at: usize) -> usize
    requires base_nonzero { 0 < base }
    requires base_bound { base ≤ 16 }
    requires room { Room output.old at (figures base count n) }
    ensures { Put output.old at (figures base count n) output.new result }
{
    let mut rest = n;
    for place in (0..count).rev() {
        output[at + place] = digit(rest % base);
        rest /= base;
    }
    at + count
}

// How many digits the decimal text has.
pub fn digits(n: u64) -> usize
    ensures { result ≡ length (decimal_text n) }
{
    n.checked_ilog10().unwrap_or(0) as usize + 1
}

pub fn put_decimal(n: u64, output: &mut [u8], at: usize) -> usize
    requires { Room output.old at (decimal_text n) }
    ensures { Put output.old at (decimal_text n) output.new result }
{
    put_figures(n, 10, digits(n), output, at)
}

// An i64, from its 64 bits: how long its text is, and the text.
pub fn signed_len(bits: u64) -> usize
    ensures { result ≡ length (signed_text bits) }
{
    if bits < 1 << 63 {
        digits(bits)
    } else {
        1 + digits(bits.wrapping_neg())
    }
}

pub fn put_signed(bits: u64, output: &mut [u8], at: usize) -> usize
    requires { Room output.old at (signed_text bits) }
    ensures { Put output.old at (signed_text bits) output.new result }
{
    if bits < 1 << 63 {
        return put_decimal(bits, output, at);
    }
    let next = put_byte(b'-', output, at);
    put_decimal(bits.wrapping_neg(), output, next)
}

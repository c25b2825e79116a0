// Ask 1: a night's sheets, which lie end to end in one buffer, read by one call. The rooms are made zero once, and each sheet pays for what
// it used of them.
#![tactic(auto)]

ghost use Rattle.std.specs.Prelude.{◌+◌, ◌*◌, ◌≤◌, ◌≡◌, length};
ghost use Rattle.std.proofs.lemmas.List.Edits.{sets};
ghost use Rattle.lengths.specs.Sum.{sum};
ghost use Rattle.rooms.specs.Stated.{Ready};
ghost use Rattle.rooms.specs.Lent.{slices_of, SameSlices};
ghost use Rattle.batch.specs.Batch.{four, BatchCall};
ghost use Rattle.batch.specs.Sheets.{ReadAll};

use de::read;
use lengths::add_up;
use op::Edition;
use refusal::{Answer, Refusal, refused};
use rooms::lending::Lent;

// A sheet's four numbers, at their place.
fn put(answers: &mut [u64], at: usize, a: Answer)
    requires { at + 4 ≤ length answers.old }
    ensures { answers.new ≡ sets answers.old at (four a) }
{
    answers[at] = a.number;
    answers[at + 1] = a.detail;
    answers[at + 2] = a.length;
    answers[at + 3] = a.count;
}

// Every sheet, one after the other, in zero rooms.
fn read_all(sheets: &[u8], lengths: &[u64], answers: &mut [u64], lent: &mut Lent<'_>)
    requires lengths_add_up { length sheets.now ≡ sum lengths.now }
    requires lengths_in_bounds { 4 * length lengths.now ≤ length answers.old }
    requires ready { Ready (slices_of lent.old) }
    ensures all { ReadAll sheets.now lengths.now answers.old answers.new (slices_of lent.old) (slices_of lent.new) }
    ensures same_slices { SameSlices lent.old lent.new }
{
    let mut at = 0;
    for (i, length) in lengths.iter().enumerate() {
        let end = at + *length as usize;
        let a = read(Edition::Full, true, &sheets[at..end], lent);
        put(answers, 4 * i, a);
        at = end;
    }
}

// The batch, of any slices: 1, then 23, then the rooms made zero and every sheet read.
pub fn from_bytes_batch(
    sheets: &[u8],
    lengths: &[u64],
    answers: &mut [u64],
    lent: &mut Lent<'_>,
) -> Answer
    ensures call { BatchCall sheets.now lengths.now answers.old (slices_of lent.old) answers.new (slices_of lent.new) result }
    ensures same_slices { SameSlices lent.old lent.new }
{
    if lent.is_short() | (lengths.len() > answers.len() / 4) {
        return refused(Refusal::ShortRoom);
    }
    if !add_up(lengths, sheets.len()) {
        return refused(Refusal::BadLengths);
    }
    lent.clear();
    read_all(sheets, lengths, answers, lent);
    Answer {
        number: 0,
        detail: 0,
        length: 0,
        count: 0,
    }
}

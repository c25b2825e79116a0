// The public calls (mod.rs's `pub use`), as crate pickle_c exports them to other languages: numbers and slices go in, a slice as a pointer and
// a length, and a struct comes back. Every input is accepted, and every call ends. Each calls the function that does the work; so do the
// programs here.
#![tactic(auto, unfolding(de::specs::Given::due))]

ghost use Rattle.std.specs.Prelude.{[], ◌∷◌, ◌≡◌};
ghost use Rattle.op.specs.declared.Edition.TheVariants.{Plain};
ghost use Rattle.reading.specs.Reading.{prefix, whole, prefix_in, whole_in};
ghost use Rattle.table.specs.Compare.{Compares};
ghost use Rattle.table.specs.Length.{text_length};
ghost use Rattle.de.specs.Call.{ReadCall};
ghost use Rattle.batch.specs.Batch.{BatchCall};
ghost use Rattle.ser.specs.Call.{WriteCall};
ghost use Rattle.scorer.specs.Call.{Scores};
ghost use Rattle.list.specs.Call.{ListCall};

use op::Edition;
use refusal::Answer;
use rooms::lending::Lent;
use scorer::Scored;
use table::Compared;

// The value at the start of the data: the bytes read, the records, and its table and text.
#[unsafe(no_mangle)]
pub extern "C" fn qelemvir_from_bytes_prefix(
    pickle: &[u8],
    nodes: &mut [u64],
    owners: &mut [u16],
    children: &mut [u16],
    stack: &mut [u16],
    marks: &mut [u16],
    keys: &mut [u32],
    held: &mut [u16],
    unescaped: &mut [u8],
    starts: &mut [u16],
    sorted: &mut [u16],
    measures: &mut [u64],
    table: &mut [u64],
    text: &mut [u8],
) -> Answer
    ensures { ReadCall (prefix pickle.now)
        (nodes.old ∷ owners.old ∷ children.old ∷ stack.old
        ∷ marks.old ∷ keys.old ∷ held.old
        ∷ unescaped.old ∷ starts.old ∷ sorted.old ∷ measures.old
        ∷ table.old ∷ text.old ∷ [])
        (nodes.new ∷ owners.new ∷ children.new ∷ stack.new
        ∷ marks.new ∷ keys.new ∷ held.new
        ∷ unescaped.new ∷ starts.new ∷ sorted.new ∷ measures.new
        ∷ table.new ∷ text.new ∷ []) result }
{
    let mut lent = Lent {
        nodes,
        owners,
        children,
        stack,
        marks,
        keys,
        held,
        unescaped,
        starts,
        sorted,
        measures,
        table,
        text,
    };
    de::reading(Edition::Full, false, pickle, &mut lent)
}

// The value that is the whole data: as the prefix reading, but 11 where that one succeeds and leaves bytes.
#[unsafe(no_mangle)]
pub extern "C" fn qelemvir_from_bytes(
    pickle: &[u8],
    nodes: &mut [u64],
    owners: &mut [u16],
    children: &mut [u16],
    stack: &mut [u16],
    marks: &mut [u16],
    keys: &mut [u32],
    held: &mut [u16],
    unescaped: &mut [u8],
    starts: &mut [u16],
    sorted: &mut [u16],
    measures: &mut [u64],
    table: &mut [u64],
    text: &mut [u8],
) -> Answer
    ensures { ReadCall (whole pickle.now)
        (nodes.old ∷ owners.old ∷ children.old ∷ stack.old
        ∷ marks.old ∷ keys.old ∷ held.old
        ∷ unescaped.old ∷ starts.old ∷ sorted.old ∷ measures.old
        ∷ table.old ∷ text.old ∷ [])
        (nodes.new ∷ owners.new ∷ children.new ∷ stack.new
        ∷ marks.new ∷ keys.new ∷ held.new
        ∷ unescaped.new ∷ starts.new ∷ sorted.new ∷ measures.new
        ∷ table.new ∷ text.new ∷ []) result }
{
    let mut lent = Lent {
        nodes,
        owners,
        children,
        stack,
        marks,
        keys,
        held,
        unescaped,
        starts,
        sorted,
        measures,
        table,
        text,
    };
    de::reading(Edition::Full, true, pickle, &mut lent)
}

// The same two readings of plain data only: an opcode outside the profile is 26.
#[unsafe(no_mangle)]
pub extern "C" fn qelemvir_plain_from_bytes_prefix(
    pickle: &[u8],
    nodes: &mut [u64],
    owners: &mut [u16],
    children: &mut [u16],
    stack: &mut [u16],
    marks: &mut [u16],
    keys: &mut [u32],
    held: &mut [u16],
    unescaped: &mut [u8],
    starts: &mut [u16],
    sorted: &mut [u16],
    measures: &mut [u64],
    table: &mut [u64],
    text: &mut [u8],
) -> Answer
    ensures { ReadCall (prefix_in Plain pickle.now)
        (nodes.old ∷ owners.old ∷ children.old ∷ stack.old
        ∷ marks.old ∷ keys.old ∷ held.old
        ∷ unescaped.old ∷ starts.old ∷ sorted.old ∷ measures.old
        ∷ table.old ∷ text.old ∷ [])
        (nodes.new ∷ owners.new ∷ children.new ∷ stack.new
        ∷ marks.new ∷ keys.new ∷ held.new
        ∷ unescaped.new ∷ starts.new ∷ sorted.new ∷ measures.new
        ∷ table.new ∷ text.new ∷ []) result }
{
    let mut lent = Lent {
        nodes,
        owners,
        children,
        stack,
        marks,
        keys,
        held,
        unescaped,
        starts,
        sorted,
        measures,
        table,
        text,
    };
    de::reading(Edition::Plain, false, pickle, &mut lent)
}

#[unsafe(no_mangle)]
pub extern "C" fn qelemvir_plain_from_bytes(
    pickle: &[u8],
    nodes: &mut [u64],
    owners: &mut [u16],
    children: &mut [u16],
    stack: &mut [u16],
    marks: &mut [u16],
    keys: &mut [u32],
    held: &mut [u16],
    unescaped: &mut [u8],
    starts: &mut [u16],
    sorted: &mut [u16],
    measures: &mut [u64],
    table: &mut [u64],
    text: &mut [u8],
) -> Answer
    ensures { ReadCall (whole_in Plain pickle.now)
        (nodes.old ∷ owners.old ∷ children.old ∷ stack.old
        ∷ marks.old ∷ keys.old ∷ held.old
        ∷ unescaped.old ∷ starts.old ∷ sorted.old ∷ measures.old
        ∷ table.old ∷ text.old ∷ [])
        (nodes.new ∷ owners.new ∷ children.new ∷ stack.new
        ∷ marks.new ∷ keys.new ∷ held.new
        ∷ unescaped.new ∷ starts.new ∷ sorted.new ∷ measures.new
        ∷ table.new ∷ text.new ∷ []) result }
{
    let mut lent = Lent {
        nodes,
        owners,
        children,
        stack,
        marks,
        keys,
        held,
        unescaped,
        starts,
        sorted,
        measures,
        table,
        text,
    };
    de::reading(Edition::Plain, true, pickle, &mut lent)
}

// A night's sheets, end to end in one buffer, each read as whole data: four places of `answers` for each (number, detail, length, count), and
// the last accepted one's table and text.
#[unsafe(no_mangle)]
pub extern "C" fn qelemvir_from_bytes_batch(
    sheets: &[u8],
    lengths: &[u64],
    answers: &mut [u64],
    nodes: &mut [u64],
    owners: &mut [u16],
    children: &mut [u16],
    stack: &mut [u16],
    marks: &mut [u16],
    keys: &mut [u32],
    held: &mut [u16],
    unescaped: &mut [u8],
    starts: &mut [u16],
    sorted: &mut [u16],
    measures: &mut [u64],
    table: &mut [u64],
    text: &mut [u8],
) -> Answer
    ensures { BatchCall sheets.now lengths.now answers.old
        (nodes.old ∷ owners.old ∷ children.old ∷ stack.old
        ∷ marks.old ∷ keys.old ∷ held.old
        ∷ unescaped.old ∷ starts.old ∷ sorted.old ∷ measures.old
        ∷ table.old ∷ text.old ∷ [])
        answers.new
        (nodes.new ∷ owners.new ∷ children.new ∷ stack.new
        ∷ marks.new ∷ keys.new ∷ held.new
        ∷ unescaped.new ∷ starts.new ∷ sorted.new ∷ measures.new
        ∷ table.new ∷ text.new ∷ []) result }
{
    let mut lent = Lent {
        nodes,
        owners,
        children,
        stack,
        marks,
        keys,
        held,
        unescaped,
        starts,
        sorted,
        measures,
        table,
        text,
    };
    batch::from_bytes_batch(sheets, lengths, answers, &mut lent)
}

// The order of two values: -1, 0 or 1, or BadTable with sign 0.
#[unsafe(no_mangle)]
pub extern "C" fn qelemvir_compare(
    first: &[u64],
    first_count: usize,
    first_text: &[u8],
    second: &[u64],
    second_count: usize,
    second_text: &[u8],
) -> Compared
    ensures { Compares
        first.now first_count first_text.now
        second.now second_count second_text.now result }
{
    table::compare(
        first,
        first_count,
        first_text,
        second,
        second_count,
        second_text,
    )
}

// The listing of a value, a line a record: BadTable, then OutputFull, else the bytes written.
#[unsafe(no_mangle)]
pub extern "C" fn qelemvir_list(
    words: &[u64],
    count: usize,
    text: &[u8],
    output: &mut [u8],
) -> Answer
    ensures { ListCall words.now count text.now output.old output.new result }
{
    list::list_table(words, count, text, output)
}

// A value as a pickle: BadTable, then UnwritableName, then OutputFull, else the bytes written.
#[unsafe(no_mangle)]
pub extern "C" fn qelemvir_to_bytes(
    words: &[u64],
    count: usize,
    text: &[u8],
    output: &mut [u8],
) -> Answer
    ensures { WriteCall words.now count text.now output.old output.new result }
{
    ser::to_bytes(words, count, text, output)
}

// The length of a table's text, which a reading does not return and the calls on a table ask for.
#[unsafe(no_mangle)]
pub extern "C" fn qelemvir_text_len(words: &[u64], count: usize) -> usize
    ensures { result ≡ text_length words.now count }
{
    table::text_len(words, count)
}

// The score of the sheet that a value is: BadTable, then SheetShape, else its score and how many items were answered.
#[unsafe(no_mangle)]
pub extern "C" fn qelemvir_score(words: &[u64], count: usize, text: &[u8]) -> Scored
    ensures { Scores words.now count text.now result }
{
    scorer::score(words, count, text)
}

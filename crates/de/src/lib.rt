// The readings of de.rs. `read` is the inner one, in rooms whose stated parts are zero and are left so: 2 for a pickle that is too long, the run
// to STOP, its answer, and what was used cleared. `reading` is `from_bytes_prefix` or `from_bytes`, of whatever slices are lent: 1 where one is
// shorter than stated, the rooms made zero, then the inner one. A call that reads many pickles makes its rooms zero once. `read_in_own_rooms` is
// `from_bytes` in rooms that it makes. Module build has the answer of a run.
#![tactic(auto)]

mod build;

ghost use Rattle.std.specs.Prelude.{true, [], ◌∷◌, ◌≡◌};
ghost use Rattle.rooms.specs.Stated.{Ready};
ghost use Rattle.rooms.specs.Lent.{slices_of, SameSlices};
ghost use Rattle.de.specs.Given.{due};
ghost use Rattle.de.specs.Inner.{InnerReads};
ghost use Rattle.de.specs.Call.{ReadCall, OwnRoomsCall};

use crate::build::answer;
use machine::run;
use op::Edition;
use refusal::{Answer, Refusal, refused};
use rooms::clear;
use rooms::lending::Lent;

// The inner reading, slice by slice: it looks at some while others are lent to be written.
fn read_in(
    edition: Edition,
    whole: bool,
    pickle: &[u8],
    nodes: &mut [u64],
    owners: &mut [u16],
    children: &mut [u16],
    stack: &mut [u16],
    marks: &mut [u16],
    keys: &mut [u32],
    held: &mut [u16],
    unescaped: &mut [u8],
    starts: &mut [u16],
    sorted: &mut [u16],
    measures: &mut [u64],
    table: &mut [u64],
    text: &mut [u8],
) -> Answer
    requires { Ready
        (nodes.old ∷ owners.old ∷ children.old ∷ stack.old ∷ marks.old ∷ keys.old ∷ held.old
        ∷ unescaped.old ∷ starts.old ∷ sorted.old ∷ measures.old ∷ table.old ∷ text.old ∷ []) }
    ensures { InnerReads (due edition whole pickle.now)
        (nodes.old ∷ owners.old ∷ children.old ∷ stack.old
        ∷ marks.old ∷ keys.old ∷ held.old
        ∷ unescaped.old ∷ starts.old ∷ sorted.old ∷ measures.old
        ∷ table.old ∷ text.old ∷ [])
        (nodes.new ∷ owners.new ∷ children.new ∷ stack.new
        ∷ marks.new ∷ keys.new ∷ held.new
        ∷ unescaped.new ∷ starts.new ∷ sorted.new ∷ measures.new
        ∷ table.new ∷ text.new ∷ []) result }
{
    if pickle.len() > 65536 {
        return refused(Refusal::TooLong);
    }
    let outcome = run(
        edition, pickle, nodes, owners, children, stack, marks, keys, held,
    );
    let c = outcome.counts;
    clear(keys, c.memo); // zero, as the answer's list has to be
    let a = answer(
        edition, outcome, whole, pickle, stack, nodes, owners, children, keys, unescaped, starts,
        sorted, measures, table, text,
    );
    clear(nodes, 2 * c.nodes);
    clear(stack, c.deepest);
    clear(marks, c.most);
    clear(held, c.memo);
    a
}

// The inner reading: every slice as it came, but what table and text begin with.
pub fn read(edition: Edition, whole: bool, pickle: &[u8], lent: &mut Lent<'_>) -> Answer
    requires { Ready (slices_of lent.old) }
    ensures reads { InnerReads (due edition whole pickle.now) (slices_of lent.old) (slices_of lent.new) result }
    ensures same_slices { SameSlices lent.old lent.new }
{
    read_in(
        edition,
        whole,
        pickle,
        lent.nodes,
        lent.owners,
        lent.children,
        lent.stack,
        lent.marks,
        lent.keys,
        lent.held,
        lent.unescaped,
        lent.starts,
        lent.sorted,
        lent.measures,
        lent.table,
        lent.text,
    )
}

// Either reading in an edition, of any slices: 1, then the rooms made zero, then the inner reading.
pub fn reading(edition: Edition, whole: bool, pickle: &[u8], lent: &mut Lent<'_>) -> Answer
    ensures call { ReadCall (due edition whole pickle.now) (slices_of lent.old) (slices_of lent.new) result }
    ensures same_slices { SameSlices lent.old lent.new }
{
    if lent.is_short() {
        return refused(Refusal::ShortRoom);
    }
    lent.clear();
    read(edition, whole, pickle, lent)
}

// Whole data in rooms of its own, some 252 KB of the stack: for programs.
pub fn read_in_own_rooms(
    edition: Edition,
    pickle: &[u8],
    table: &mut [u64],
    text: &mut [u8],
) -> Answer
    ensures { OwnRoomsCall (due edition true pickle.now)
        table.old text.old table.new text.new result }
{
    let mut nodes = [0u64; 8192];
    let mut owners = [0u16; 8192];
    let mut children = [0u16; 8192];
    let mut stack = [0u16; 2048];
    let mut marks = [0u16; 256];
    let mut keys = [0u32; 2048];
    let mut held = [0u16; 1024];
    let mut unescaped = [0u8; 65536];
    let mut starts = [0u16; 4098];
    let mut sorted = [0u16; 16384];
    let mut measures = [0u64; 4096];
    let mut lent = Lent {
        nodes: &mut nodes,
        owners: &mut owners,
        children: &mut children,
        stack: &mut stack,
        marks: &mut marks,
        keys: &mut keys,
        held: &mut held,
        unescaped: &mut unescaped,
        starts: &mut starts,
        sorted: &mut sorted,
        measures: &mut measures,
        table,
        text,
    };
    reading(edition, true, pickle, &mut lent)
}

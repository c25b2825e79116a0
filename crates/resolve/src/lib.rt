// The root's tree measured, and its graph resolved, in one walk over the nodes: depth, values and text of each container as one word in its
// measure, each child that is None at its place overwritten by the number of no node, and the Sets and Dicts noted in the order in which they
// are finished. The walk decodes, orders and writes nothing, so that what comes after is bounded by what it finds out. Module siblings comes before
// it; lists and texts are how the passes behind it read a node off the rooms.
#![tactic(auto)]

pub mod lists;
pub mod siblings;
pub mod texts;

ghost use Rattle.std.specs.Prelude.{◌≡◌, ◌+◌, ◌*◌, ◌<◌, ◌≤◌, length, get_or};
ghost use Rattle.std.proofs.Math.Seq.{slice};
ghost use Rattle.text.specs.Pieces.{bytes_of};
ghost use Rattle.text.specs.Text.{unescape_string, unescape_unicode};
ghost use Rattle.resolve.specs.Length.{names_len, text_bytes, LengthReadable};
ghost use Rattle.resolve.specs.MeasureWord.{pack_w};
ghost use Rattle.resolve.specs.Blocked.{arguments_taken};
ghost use Rattle.resolve.specs.DuesRoom.{Notes};
ghost use Rattle.resolve.specs.Class.{OwnTextReadable, Owns};
ghost use Rattle.resolve.specs.Known.{Learns};
ghost use Rattle.resolve.specs.Ends.{Opens, Walks};
ghost use Rattle.resolve.specs.Rooted.{ReadyToResolve, Roots};

use crate::texts::{module_text, raw_text};
use refusal::Refusal;
use store::NodeId;
use text::{Quoted, string_len, unicode_len};
use utf8::repaired_len;

// A measure: 0 for a fresh node, 1 for one taken out, 3 for an Object that is None for good, else a word, packed as store says: depth, values and text,
// values capped at 2,049 and text at 65,537. The word of a leaf with a text is stored when the walk comes to it.

// The word of a value without contents and text: one deep, one value.
const LEAF: u64 = 1 + store::DEPTHS;

// As the rooms of u16 hold it.
const NOWHERE: u16 = store::NOWHERE as u16;

// What a node comes to without a walk: it is to be walked, it is None at its place, or its word.
#[derive(Drop)]
pub enum Seen {
    Open,
    Empty,
    Word(u64),
}

// A measure's word, values and text capped. The bound on depth is only so that nothing wraps.
fn measure_word(depth: u64, values: u64, text_len: u64) -> u64
    requires { depth ≤ 128 }
    ensures { result ≡ pack_w depth values text_len }
{
    depth + store::DEPTHS * values.min(2049) + store::TEXT_AT * text_len.min(65537)
}

// ---- how long a node's text is

// Of a Global's module and name.
fn global_text_len(pickle: &[u8], a: u64, b: u64) -> usize
    requires { length pickle.now ≤ 65536 }
    ensures { result ≡ names_len pickle.now a b }
{
    let module = repaired_len(module_text(pickle, a));
    let name = repaired_len(raw_text(pickle, b));
    module + name
}

// Of a line of STRING. One that is refused has no text.
fn string_text_len(line: &[u8]) -> usize
    ensures { result ≡ length (bytes_of (unescape_string line.now)) }
{
    match string_len(line) {
        Ok(Quoted::Plain) => line.len() - 2,
        Ok(Quoted::Escaped(n)) => n,
        Err(_) => 0,
    }
}

// Of a line of UNICODE, the same.
fn unicode_text_len(line: &[u8]) -> usize
    ensures { result ≡ length (bytes_of (unescape_unicode line.now)) }
{
    unicode_len(line).unwrap_or(0)
}

// Of a node; an Object's is its class's.
fn node_text_len(pickle: &[u8], nodes: &[u64], node: NodeId) -> usize
    requires { LengthReadable pickle.now nodes.now node.0 }
    ensures { result ≡ text_bytes pickle.now nodes.now node.0 }
{
    let i = node.0;
    let a = nodes[2 * i];
    let b = nodes[2 * i + 1];
    let kind = a % store::KIND_RADIX;
    if kind == value::KIND_BYTES {
        let bytes = raw_text(pickle, b);
        return bytes.len();
    }
    if kind == value::KIND_STRING {
        return repaired_len(raw_text(pickle, b));
    }
    if kind == value::KIND_GLOBAL {
        return global_text_len(pickle, a, b);
    }
    if kind == value::KIND_OBJECT {
        let class = NodeId((a / store::CLASS) as usize);
        return global_text_len(pickle, nodes[2 * class.0], nodes[2 * class.0 + 1]);
    }
    if kind == store::KIND_ESCAPED {
        return string_text_len(raw_text(pickle, b));
    }
    if kind == store::KIND_UNICODE {
        return unicode_text_len(raw_text(pickle, b));
    }
    0
}

// ---- the walk

// The word of a leaf.
fn leaf_word(node: NodeId, pickle: &[u8], nodes: &[u64]) -> u64
    requires { LengthReadable pickle.now nodes.now node.0 }
    ensures { result ≡ pack_w 1 1 (text_bytes pickle.now nodes.now node.0) }
{
    measure_word(1, 1, node_text_len(pickle, nodes, node) as u64)
}

// A node as far as no walk is needed for it.
fn known(node: NodeId, pickle: &[u8], nodes: &[u64], measures: &mut [u64]) -> Seen
    requires length_readable { LengthReadable pickle.now nodes.now node.0 }
    requires node_in_bounds { node.0 < length measures.old }
    ensures { Learns pickle.now nodes.now measures.old measures.new node.0 result }
{
    let n = node.0;
    let kind = nodes[2 * n] % store::KIND_RADIX;
    if kind < value::KIND_BYTES {
        return Seen::Word(LEAF);
    }
    let m = measures[n];
    if m != 0 {
        if m < 4 {
            return Seen::Empty;
        }
        if m < store::AHEAD {
            return Seen::Word(m);
        }
        let w = m - store::AHEAD;
        measures[n] = w;
        return Seen::Word(w);
    }
    if crate::lists::is_container(kind) {
        return Seen::Open;
    }
    let w = leaf_word(node, pickle, nodes);
    measures[n] = w;
    Seen::Word(w)
}

// How long a container's own text is: an Object's is its class's, which is measured once.
fn own_text_len(kind: u64, node: NodeId, pickle: &[u8], nodes: &[u64], measures: &mut [u64]) -> u64
    requires { OwnTextReadable pickle.now nodes.now measures.old node.0 kind }
    ensures { Owns pickle.now nodes.now measures.old measures.new node.0 result }
{
    if kind != value::KIND_OBJECT {
        return 0;
    }
    let n = node.0;
    let class = NodeId((nodes[2 * n] / store::CLASS) as usize);
    let c = class.0;
    let m = measures[c];
    if m != 0 {
        return m / store::TEXT_AT % store::TEXTS;
    }
    let w = leaf_word(class, pickle, nodes);
    measures[c] = w + store::AHEAD;
    w / store::TEXT_AT % store::TEXTS
}

// Is it an Object whose arguments, its first child, are taken out?
fn blocked(kind: u64, at: usize, end: usize, sorted: &[u16], measures: &[u64]) -> bool
    requires end_in_bounds { end ≤ length sorted.now }
    requires at_in_bounds { at < end → get_or sorted.now at 0 < length measures.now }
    ensures { result ≡ arguments_taken kind (slice at end sorted.now) measures.now }
{
    if kind != value::KIND_OBJECT || end <= at {
        return false;
    }
    measures[sorted[at] as usize] == 1
}

// Notes a finished node where it is a Set or a Dict: the number of those noted stands in front of them.
fn note(kind: u64, node: NodeId, dues: &mut [u16])
    requires { (node.0 < 65536) × (get_or dues.old 0 0 < 65535) × (get_or dues.old 0 0 + 1 < length dues.old) }
    ensures { Notes kind node.0 dues.old dues.new }
{
    if !crate::lists::is_sorted(kind) {
        return;
    }
    let count = dues[0] as usize + 1;
    dues[count] = node.0 as u16;
    dues[0] = count as u16;
}

// The word of a fresh container's tree, with so many levels left, at least one; none where it is None at its place, and too deep where more
// levels are needed.
fn measure(
    node: NodeId,
    levels: u64,
    starts: &[u16],
    sorted: &mut [u16],
    pickle: &[u8],
    nodes: &[u64],
    measures: &mut [u64],
    dues: &mut [u16],
) -> Result<Option<u64>, Refusal>
    requires levels_in_range { (1 ≤ levels) × (levels ≤ 64) }
    requires opens { Opens pickle.now nodes.now starts.now measures.old sorted.old dues.old node.0 }
    ensures { Walks pickle.now nodes.now starts.now levels node.0
        measures.old sorted.old dues.old
        measures.new sorted.new dues.new result }
{
    let n = node.0;
    let kind = nodes[2 * n] % store::KIND_RADIX;
    let at = starts[n] as usize;
    let end = starts[n + 1] as usize;
    if blocked(kind, at, end, sorted, measures) {
        measures[n] = 3;
        return Ok(None);
    }
    let mut texts = own_text_len(kind, node, pickle, nodes, measures);
    measures[n] = 1;
    let mut deepest: u64 = 0;
    let mut values = 1;
    for i in at..end {
        if levels == 1 {
            return Err(Refusal::TooDeep);
        }
        let child = NodeId(sorted[i] as usize);
        let found = match known(child, pickle, nodes, measures) {
            Seen::Word(w) => {
                if levels <= w % store::DEPTHS {
                    return Err(Refusal::TooDeep);
                }
                Some(w)
            }
            Seen::Empty => None,
            Seen::Open => measure(
                child,
                levels - 1,
                starts,
                sorted,
                pickle,
                nodes,
                measures,
                dues,
            )?,
        };
        let w = match found {
            Some(w) => w,
            None => {
                sorted[i] = NOWHERE;
                LEAF
            }
        };
        deepest = deepest.max(w % store::DEPTHS);
        values += w / store::DEPTHS % store::VALUES;
        texts += w / store::TEXT_AT % store::TEXTS;
    }
    note(kind, node, dues);
    let w = measure_word(deepest + 1, values, texts);
    measures[n] = w;
    Ok(Some(w))
}

// The root's tree: too deep where it has more than 64 levels, else its word, and a graph in which the root stands for it. (None is never a
// root's.)
pub fn measure_root(
    node: NodeId,
    starts: &[u16],
    sorted: &mut [u16],
    pickle: &[u8],
    nodes: &[u64],
    measures: &mut [u64],
    dues: &mut [u16],
) -> Result<Option<u64>, Refusal>
    requires { ReadyToResolve pickle.now nodes.now starts.now sorted.old measures.old dues.old node.0 }
    ensures { Roots pickle.now nodes.now starts.now
        sorted.old measures.old dues.old
        sorted.new measures.new dues.new node.0 result }
{
    match known(node, pickle, nodes, measures) {
        Seen::Word(w) => Ok(Some(w)),
        Seen::Empty => Ok(None),
        Seen::Open => measure(node, 64, starts, sorted, pickle, nodes, measures, dues),
    }
}

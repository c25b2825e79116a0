// The last pass of the reading: a root's value straight into the lent table and text, records in preorder, each text behind those before
// it. A container is written once; at any other place its records and its text are copied, text places moved. Before it module arrange puts Sets
// and Dicts in order, by module order.
#![tactic(auto)]

pub mod arrange;
mod order;

ghost use Rattle.std.specs.Prelude.{◌≡◌, true, false, cond, [], ◌∷◌, ◌+◌, ◌-◌, ◌*◌, ◌^◌, ◌/◌, ◌%◌, ◌≤◌, ◌<◌, length, take, drop};
ghost use Rattle.std.proofs.lemmas.List.Edits.{sets};
ghost use Rattle.value.specs.Shape.{fresh_in};
ghost use Rattle.steps.specs.NodeWords.{first};
ghost use Rattle.resolve.specs.Moved.{has_text_place, moves};
ghost use Rattle.emit.specs.Copies.{Copyable};
ghost use Rattle.emit.specs.Words.{place_of, written_w, record_from};
ghost use Rattle.resolve.specs.Kinds.{kind_of, container_kind};
ghost use Rattle.resolve.specs.Shown.{node_label};
ghost use Rattle.emit.specs.Leaves.{TextReady, TextPut, kind_below, AtomReady, AtomPut, LeafReady, LeafPut, CopyReady, CopyPut, FinishReady, FinishPut, opened};
ghost use Rattle.emit.specs.Calls.{Flat, FlatWrites, Open};
ghost use Rattle.emit.specs.Turns.{Writes};
ghost use Rattle.emit.specs.Roots.{Rooted, Emits};

use store::NodeId;
use value::Head;

// A place to write at: behind so many records, and so many bytes of text.
#[derive(Clone, Copy)]
pub struct Place {
    pub records: usize,
    pub bytes: usize,
}

// A container's measure from here on says where it is written: its record, 2^12 times its records, 2^24 times the place of its text, 2^41 times
// the text's length.
const WRITTEN: u64 = 0x8000_0000_0000_0000;

// The words of one record of the table.
type Record = [u64; 4];

fn put_record(table: &mut [u64], i: usize, words: Record)
    requires { 4 * i + 4 ≤ length table.old }
    ensures { table.new ≡ sets table.old (4 * i) words }
{
    let [first, second, third, fourth] = words;
    table[4 * i] = first;
    table[4 * i + 1] = second;
    table[4 * i + 2] = third;
    table[4 * i + 3] = fourth;
}

fn put_bytes(bytes: &[u8], text: &mut [u8], at: usize)
    requires { at + length bytes.now ≤ length text.old }
    ensures { text.new ≡ sets text.old at bytes.now }
{
    text[at..at + bytes.len()].copy_from_slice(bytes);
}

// Has a record with this first word a text place?
fn is_placed(first: u64) -> bool
    ensures { result ≡ has_text_place first }
{
    let kind = value::head_of(first).kind;
    kind == value::KIND_BYTES || kind == value::KIND_STRING || value::KIND_DICT < kind
}

// The second word of a record whose text began at `from` and begins at `to`, if it has any text.
fn moved_word(first: u64, second: u64, from: usize, to: usize) -> u64
    requires { has_text_place first ≡ true → (from ≤ second) × (second - from + to < 2 ^ 64) }
    ensures { result ≡ cond (has_text_place first) (second - from + to) second }
{
    if is_placed(first) {
        second - from as u64 + to as u64
    } else {
        second
    }
}

// The `size` records that stand from `from` on, once more from `at` on, their texts from `target` on.
fn copy_records(
    table: &mut [u64],
    from: usize,
    size: usize,
    at: usize,
    origin: usize,
    target: usize,
)
    requires { Copyable table.old from size at origin target }
    ensures { table.new ≡ sets table.old (4 * at)
        (moves origin target (take (4 * size) (drop (4 * from) table.old))) }
{
    for k in 0..size {
        let i = 4 * (from + k);
        let first = table[i];
        let place = table[i + 1];
        let second = moved_word(first, place, origin, target);
        let words = [first, second, table[i + 2], table[i + 3]];
        put_record(table, at + k, words);
    }
}

// Word 0 of a record that is no Object's.
fn plain_word(kind: u64) -> u64
    requires { kind < 16 }
    ensures { result ≡ kind }
{
    value::word_of(Head {
        kind,
        new: false,
        state: false,
    })
}

// The record of a node with these words: its text's lengths and place, the values directly in it, its records in all.
fn record_of(first: u64, second: u64, lengths: u64, at: u64, values: u64, size: u64) -> Record
    requires { kind_of first ≡ 12 → values ≤ 2 }
    ensures { result ≡ record_from (kind_of first) (fresh_in first) second lengths at values size }
{
    let kind = resolve::lists::value_kind(first);
    if kind == value::KIND_OBJECT {
        let head = value::head_of(first);
        let word = value::word_of(Head {
            kind,
            new: head.new,
            state: values == 2,
        });
        return [word, at, lengths, size];
    }
    let word = plain_word(kind);
    if kind == value::KIND_NONE {
        return [word, 0, 0, 0];
    }
    if kind == value::KIND_BOOL {
        return [word, (second == 1) as u64, 0, 0];
    }
    if kind < value::KIND_BYTES {
        return [word, second, 0, 0];
    }
    if kind < value::KIND_LIST {
        return [word, at, lengths, 0];
    }
    if kind < value::KIND_DICT {
        return [word, values, size, 0];
    }
    if kind == value::KIND_DICT {
        return [word, values / 2, size, 0];
    }
    [word, at, lengths, 0]
}

// The module and the name of a Global or of an Object's class; their lengths in one word, the name's below the module's.
fn put_names<'a>(
    node: NodeId,
    pickle: &'a [u8],
    decoded: &'a [u8],
    nodes: &[u64],
    measures: &[u64],
    text: &mut [u8],
    at: usize,
) -> u64
    requires text_ready { TextReady pickle.now decoded.now nodes.now measures.now node.0 text.old at }
    requires kind_bound { 11 ≤ kind_of (first nodes.now node.0) }
    ensures { TextPut pickle.now nodes.now node.0 text.old at text.new result }
{
    let module = resolve::texts::lead_part(node, pickle, decoded, nodes, measures);
    let name = resolve::texts::trail_part(node, pickle, decoded, nodes, measures);
    put_bytes(module, text, at);
    put_bytes(name, text, at + module.len());
    module.len() as u64 * 0x1_0000_0000 + name.len() as u64
}

// The text of a container: only an Object has one, its class's.
fn put_class<'a>(
    node: NodeId,
    pickle: &'a [u8],
    decoded: &'a [u8],
    nodes: &[u64],
    measures: &[u64],
    text: &mut [u8],
    at: usize,
) -> u64
    requires text_ready { TextReady pickle.now decoded.now nodes.now measures.now node.0 text.old at }
    requires is_container { container_kind (kind_of (first nodes.now node.0)) ≡ true }
    ensures { TextPut pickle.now nodes.now node.0 text.old at text.new result }
{
    let i = node.0;
    if resolve::lists::value_kind(nodes[2 * i]) == value::KIND_OBJECT {
        return put_names(node, pickle, decoded, nodes, measures, text, at);
    }
    0
}

// The place behind one record with text of these lengths.
fn behind(to: Place, lengths: u64) -> Place
    requires records_fit { to.records < 2048 }
    requires bytes_fit { to.bytes + (lengths / 2 ^ 32 + lengths % 2 ^ 32) ≤ 65536 }
    ensures { result ≡ place_of (to.records + 1) (to.bytes + (lengths / 2 ^ 32 + lengths % 2 ^ 32)) }
{
    let long = lengths / 0x1_0000_0000 + lengths % 0x1_0000_0000;
    Place {
        records: to.records + 1,
        bytes: to.bytes + long as usize,
    }
}

// Does the kind in a node's first word come before this one?
fn is_below(node: NodeId, kind: u64, nodes: &[u64]) -> bool
    requires node_in_bounds { node.0 < 4096 → 2 * node.0 < length nodes.now }
    requires node_bound { node.0 ≤ 4096 }
    ensures { result ≡ kind_below kind nodes.now node.0 }
{
    let i = node.0;
    if i == store::NOWHERE {
        return false;
    }
    nodes[2 * i] % store::KIND_RADIX < kind
}

// A value with neither text nor contents: None, a Bool, an I64 or an F64.
fn write_atom(node: NodeId, to: Place, nodes: &[u64], table: &mut [u64]) -> Place
    requires { AtomReady nodes.now node.0 to table.old }
    ensures { AtomPut nodes.now node.0 to table.old table.new result }
{
    let i = node.0;
    let words = record_of(nodes[2 * i], nodes[2 * i + 1], 0, to.bytes as u64, 0, 1);
    put_record(table, to.records, words);
    Place {
        records: to.records + 1,
        bytes: to.bytes,
    }
}

// Bytes or a String.
fn write_text<'a>(
    node: NodeId,
    to: Place,
    pickle: &'a [u8],
    decoded: &'a [u8],
    nodes: &[u64],
    measures: &[u64],
    table: &mut [u64],
    text: &mut [u8],
) -> Place
    requires leaf_ready { LeafReady pickle.now decoded.now nodes.now measures.now node.0 to table.old text.old }
    requires kind_bound { (4 ≤ kind_of (first nodes.now node.0)) × (kind_of (first nodes.now node.0) < 6) }
    ensures { LeafPut
        (node_label pickle.now nodes.now node.0) to table.old
        text.old table.new text.new result }
{
    let bytes = resolve::texts::lead_part(node, pickle, decoded, nodes, measures);
    put_bytes(bytes, text, to.bytes);
    let word = plain_word(resolve::lists::value_kind(nodes[2 * node.0]));
    let len = bytes.len();
    put_record(table, to.records, [word, to.bytes as u64, len as u64, 0]);
    Place {
        records: to.records + 1,
        bytes: to.bytes + len,
    }
}

// A container that is written already, by its measure, once more.
fn write_again(measure: u64, to: Place, table: &mut [u64], text: &mut [u8]) -> Place
    requires { CopyReady measure to table.old text.old }
    ensures { CopyPut measure to table.old text.old table.new text.new result }
{
    let from = (measure % 0x1000) as usize;
    let size = (measure / 0x1000 % 0x1000) as usize;
    let origin = (measure / 0x100_0000 % 0x2_0000) as usize;
    let long = (measure / 0x200_0000_0000 % 0x2_0000) as usize;
    copy_records(table, from, size, to.records, origin, to.bytes);
    text.copy_within(origin..origin + long, to.bytes);
    Place {
        records: to.records + size,
        bytes: to.bytes + long,
    }
}

// Is a node a container that is not written yet?
fn is_open(node: NodeId, nodes: &[u64], measures: &[u64]) -> bool
    requires node_in_bounds { node.0 < 4096 → (2 * node.0 < length nodes.now) × (node.0 < length measures.now) }
    requires node_bound { node.0 ≤ 4096 }
    ensures { result ≡ opened nodes.now measures.now node.0 }
{
    let i = node.0;
    if i == store::NOWHERE {
        return false;
    }
    if resolve::lists::is_container(resolve::lists::value_kind(nodes[2 * i])) {
        return measures[i] < WRITTEN;
    }
    false
}

// A node that needs no walk: none, a leaf, or a container that is written already.
fn write_flat<'a>(
    node: NodeId,
    to: Place,
    pickle: &'a [u8],
    decoded: &'a [u8],
    nodes: &[u64],
    measures: &[u64],
    table: &mut [u64],
    text: &mut [u8],
) -> Place
    requires { Flat pickle.now decoded.now nodes.now node.0 to measures.now table.old text.old }
    ensures { FlatWrites
        pickle.now decoded.now nodes.now node.0 to measures.now
        table.old text.old table.new text.new result }
{
    let i = node.0;
    if i == store::NOWHERE {
        let words = record_of(0, 0, 0, 0, 0, 1);
        put_record(table, to.records, words);
        return Place {
            records: to.records + 1,
            bytes: to.bytes,
        };
    }
    let kind = resolve::lists::value_kind(nodes[2 * i]);
    if resolve::lists::is_container(kind) {
        return write_again(measures[i], to, table, text);
    }
    if kind < value::KIND_BYTES {
        return write_atom(node, to, nodes, table);
    }
    if kind < value::KIND_LIST {
        return write_text(node, to, pickle, decoded, nodes, measures, table, text);
    }
    let lengths = put_names(node, pickle, decoded, nodes, measures, text, to.bytes);
    put_record(
        table,
        to.records,
        [plain_word(kind), to.bytes as u64, lengths, 0],
    );
    behind(to, lengths)
}

// The measure of a container that is written from `to` on and ends at `next`.
fn written_measure(to: Place, next: Place) -> u64
    requires { (to.records ≤ next.records) × (next.records < 4096) × (to.bytes ≤ next.bytes) × (next.bytes ≤ 65536) }
    ensures { result ≡ written_w to.records (next.records - to.records) to.bytes (next.bytes - to.bytes) }
{
    let size = (next.records - to.records) as u64;
    let long = (next.bytes - to.bytes) as u64;
    WRITTEN
        + to.records as u64
        + 0x1000 * size
        + 0x100_0000 * to.bytes as u64
        + 0x200_0000_0000 * long
}

// The record of a container whose contents end at `next`, with its text's lengths and the values directly in it; its measure.
fn finish(
    node: NodeId,
    to: Place,
    next: Place,
    lengths: u64,
    values: usize,
    nodes: &[u64],
    table: &mut [u64],
) -> u64
    requires { FinishReady nodes.now node.0 to next values table.old }
    ensures { FinishPut
        nodes.now node.0 to next lengths values table.old table.new result }
{
    let i = node.0;
    let words = record_of(
        nodes[2 * i],
        nodes[2 * i + 1],
        lengths,
        to.bytes as u64,
        values as u64,
        (next.records - to.records) as u64,
    );
    put_record(table, to.records, words);
    written_measure(to, next)
}

// A container that is not written yet, with so many levels left: its text, what is in it, then its record and its measure.
fn write<'a>(
    node: NodeId,
    levels: u64,
    to: Place,
    starts: &[u16],
    sorted: &[u16],
    log: &[u16],
    pickle: &'a [u8],
    decoded: &'a [u8],
    nodes: &[u64],
    measures: &mut [u64],
    table: &mut [u64],
    text: &mut [u8],
) -> Place
    requires { Open
        pickle.now decoded.now nodes.now starts.now sorted.now log.now levels node.0 to
        measures.old table.old text.old }
    ensures { Writes
        pickle.now decoded.now nodes.now starts.now
        sorted.now log.now levels node.0 to measures.old
        table.old text.old measures.new table.new text.new
        result }
{
    let range = resolve::lists::range_of(node, nodes, starts, measures);
    let lengths = put_class(node, pickle, decoded, nodes, measures, text, to.bytes);
    let mut next = behind(to, lengths);
    for j in range.at..range.end {
        let child = resolve::lists::item(range.log, j, sorted, log);
        if is_below(child, value::KIND_BYTES, nodes) {
            next = write_atom(child, next, nodes, table); // most are: no call that lends the texts
        } else if is_below(child, value::KIND_LIST, nodes) {
            next = write_text(child, next, pickle, decoded, nodes, measures, table, text);
        } else if is_open(child, nodes, measures) {
            next = write(
                child,
                levels - 1,
                next,
                starts,
                sorted,
                log,
                pickle,
                decoded,
                nodes,
                measures,
                table,
                text,
            );
        } else {
            next = write_flat(child, next, pickle, decoded, nodes, measures, table, text);
        }
    }
    let values = range.end - range.at;
    measures[node.0] = finish(node, to, next, lengths, values, nodes, table);
    next
}

// The root's value into the table and the text, from the front. The answer: the place behind it, which says how much it is.
pub fn write_root<'a>(
    root: NodeId,
    starts: &[u16],
    sorted: &[u16],
    log: &[u16],
    pickle: &'a [u8],
    decoded: &'a [u8],
    nodes: &[u64],
    measures: &mut [u64],
    table: &mut [u64],
    text: &mut [u8],
) -> Place
    requires { Rooted
        pickle.now decoded.now nodes.now starts.now sorted.now log.now root.0 measures.old
        table.old text.old }
    ensures { Emits
        pickle.now decoded.now nodes.now
        starts.now sorted.now log.now
        root.0
        measures.old table.old text.old
        table.new text.new result }
{
    let to = Place {
        records: 0,
        bytes: 0,
    };
    if is_open(root, nodes, measures) {
        write(
            root, 64, to, starts, sorted, log, pickle, decoded, nodes, measures, table, text,
        )
    } else {
        write_flat(root, to, pickle, decoded, nodes, measures, table, text)
    }
}

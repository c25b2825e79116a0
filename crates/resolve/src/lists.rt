// What the passes behind STOP ask of a node but its text: its value's kind, whether that has contents, where its list stands, among the children
// or in the log, and the list's numbers one by one.
ghost use Rattle.std.specs.Prelude.{◌≡◌, cond, ◌<◌, length, get_or};
ghost use Rattle.resolve.specs.Shown.{sorted_in};
ghost use Rattle.resolve.specs.Kinds.{kind_of, container_kind};
ghost use Rattle.resolve.specs.NodeList.{Listed, Ranges};

use store::NodeId;

// From a node's kind to its value's: 13 are Bytes too, 14 is a String.
pub const TO_VALUE: u64 = store::KIND_ESCAPED - value::KIND_BYTES;

// The kind of a node's value, by the node's first word.
pub fn value_kind(first: u64) -> u64
    ensures { result ≡ kind_of first }
{
    match first % store::KIND_RADIX {
        kind @ value::KIND_NONE..=value::KIND_OBJECT => kind,
        kind @ store::KIND_ESCAPED..=store::KIND_UNICODE => kind - TO_VALUE,
        _ => value::KIND_NONE,
    }
}

// Has a value, or a node, of this kind contents? (Of a value's kind as `value::holds` says; the two kinds that only a node has have none.)
#[tactic(auto, unfolding(crate::specs::Kinds::container_kind))]
pub fn is_container(kind: u64) -> bool
    ensures { result ≡ container_kind kind }
{
    matches!(
        kind,
        value::KIND_LIST..=value::KIND_DICT | value::KIND_OBJECT
    )
}

// The numbers from `at` to `end`, in the log or among the children.
#[derive(Drop)]
pub struct Range {
    pub log: bool,
    pub at: usize,
    pub end: usize,
}

// Whether lists of a kind are put in order.
#[tactic(auto, unfolding(crate::specs::Shown::sorted_in))]
pub fn is_sorted(kind: u64) -> bool
    ensures { result ≡ sorted_in kind }
{
    matches!(kind, value::KIND_SET..=value::KIND_DICT)
}

// Where a container's list stands: a Set's or Dict's where its measure says, once it is in order.
pub fn range_of(node: NodeId, nodes: &[u64], starts: &[u16], measures: &[u64]) -> Range
    requires { Listed nodes.now starts.now measures.now node.0 }
    ensures { Ranges nodes.now starts.now measures.now node.0 result }
{
    let i = node.0;
    let kind = nodes[2 * i] % store::KIND_RADIX;
    if is_sorted(kind) {
        let measure = measures[i];
        let at = (measure % store::SHORTS) as usize;
        return Range {
            log: kind < value::KIND_DICT,
            at,
            end: at + (measure / store::SHORTS % store::SHORTS) as usize,
        };
    }
    Range {
        log: false,
        at: starts[i] as usize,
        end: starts[i + 1] as usize,
    }
}

// The node at a place of the log or of the children side by side.
pub fn item(in_log: bool, at: usize, sorted: &[u16], log: &[u16]) -> NodeId
    requires { at < length (cond in_log log.now sorted.now) }
    ensures { result.0 ≡ get_or (cond in_log log.now sorted.now) at 0 }
{
    if in_log {
        NodeId(log[at] as usize)
    } else {
        NodeId(sorted[at] as usize)
    }
}

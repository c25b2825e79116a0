// What the machine keeps in its rooms: nodes and memo numbers, the counts of what is used, and the effect that an opcode decides on. The
// opcodes read it, the effects write it, the passes behind STOP go on from it. specs/ has what rooms and counts say of the state.
#![tactic(auto)]

ghost use Rattle.std.specs.Prelude.{true, ◌≡◌, ℕ, ◌+◌, ◌*◌, ◌<◌, ◌≤◌, length, get_or, MatchOption};
ghost use Rattle.value.specs.Shape.{kind_in};
ghost use Rattle.steps.specs.NodeWords.{first};
ghost use Rattle.store.specs.Rooms.{Absent, Passed, Numbered};

// A node's place in the node table.
#[derive(Clone, Copy)]
pub struct NodeId(pub usize);

// A number that a pickle gives an entry of the memo.
#[derive(Clone, Copy)]
pub struct MemoKey(pub u32);

// The place in the pickle, and how much of each room is used; of stack and marks also how much ever was. `greatest` is above every
// number in the memo.
#[derive(Clone, Copy, Default)]
pub struct Counts {
    pub at: usize,
    pub nodes: usize,
    pub links: usize,
    pub stack: usize,
    pub deepest: usize,
    pub marks: usize,
    pub most: usize,
    pub memo: usize,
    pub greatest: usize,
}

// What an opcode comes to, with the counts after what it read and took. Remember's word has no meaning: its number is then over no word of
// another effect, which is quicker.
#[derive(Clone, Copy)]
pub enum Effect {
    Push(Counts, u64, u64),
    Share(Counts, NodeId),
    Mark(Counts),
    Go(Counts),
    Make(Counts, u64),
    Extend(Counts, NodeId),
    Remember(Counts, NodeId, u64, MemoKey),
    Build(Counts, NodeId, NodeId),
    Stop(Counts),
}

// Behind the kinds of a table's record, two more of a node's first word, of which only the line is known before STOP, quotes and all: Bytes
// of a STRING with an escape, a String of UNICODE.
pub const KIND_ESCAPED: u64 = 13;

pub const KIND_UNICODE: u64 = 14;

// The kinds of nodes have the numbers below this one.
pub const NODE_KINDS: u64 = 15;

// How a node's two words are packed (steps/specs/NodeWords.antt). The first: its kind is below KIND_RADIX; above it stand a Global's module,
// place below MODULE_LEN_AT and then length, or an Object's flags, NEW and STATE, and from CLASS on the node of its class. Kind and flags lie
// as in a record's word 0, so that `value::head_of` reads them too.
pub const KIND_RADIX: u64 = 16;

pub const NEW: u64 = 16;

pub const STATE: u64 = 32;

pub const CLASS: u64 = 64;

pub const MODULE_LEN_AT: u64 = 0x100_0000;

// The second, where it has two parts, is two halves: place and length of a text, an Object's arguments and state, how many items a
// container has and where its links begin.
pub const HALF: u64 = 0x1_0000_0000;

// The number of no node.
pub const NOWHERE: usize = 4096;

// How the walk behind STOP packs a node's measure: its depth is below DEPTHS; then come its values, below VALUES, and from TEXT_AT on its
// text, below TEXTS. With AHEAD it is a Global's that was measured for an Object of its class before the walk came to it.
pub const DEPTHS: u64 = 128;

pub const VALUES: u64 = 4096;

pub const TEXT_AT: u64 = 524288;

pub const TEXTS: u64 = 131072;

pub const AHEAD: u64 = 0x200_0000_0000;

// What the walk packs is below this, with AHEAD too.
pub const MEASURED: u64 = 0x400_0000_0000;

// A measure from here on, and below that of a decoded text or of what is written (emit), is of a Set or Dict in order: where its list
// begins, below SHORTS, and how many it has, below SHORTS again.
pub const IN_ORDER: u64 = 0x2000_0000_0000_0000;

pub const SHORTS: u64 = 0x1_0000;

// The kind of a node.
pub fn kind(nodes: &[u64], id: NodeId) -> u64
    requires { 2 * id.0 < length nodes.now }
    ensures { result ≡ kind_in (first nodes.now id.0) }
{
    let i = 2 * id.0;
    nodes[i] % KIND_RADIX
}

// ---- where a memo number stands

// None of eight memo numbers is `k`: tested together, which is quicker than one by one.
fn differ(keys: &[u32], from: usize, k: u32) -> bool
    requires { from + 8 ≤ length keys.now }
    ensures { result ≡ true → Passed keys.now from (from + 8) k }
{
    (keys[from] != k)
        & (keys[from + 1] != k)
        & (keys[from + 2] != k)
        & (keys[from + 3] != k)
        & (keys[from + 4] != k)
        & (keys[from + 5] != k)
        & (keys[from + 6] != k)
        & (keys[from + 7] != k)
}

// How far down from `memo` surely none is `k`, by 32 numbers at a time.
fn passed(keys: &[u32], memo: usize, k: u32) -> usize
    requires { memo ≤ length keys.now }
    ensures { (result ≤ memo) × Passed keys.now result memo k }
{
    let mut i = memo;
    while 32 <= i {
        let from = i - 32;
        if !(differ(keys, from, k)
            & differ(keys, from + 8, k)
            & differ(keys, from + 16, k)
            & differ(keys, from + 24, k))
        {
            return i;
        }
        i = from;
    }
    i
}

// The place of a memo number among the first `memo`, which are different ones: by a search, newest first.
fn search(keys: &[u32], memo: usize, key: MemoKey) -> Option<usize>
    requires memo_in_bounds { memo ≤ length keys.now }
    requires distinct { (i : ℕ) → i < memo → Absent keys.now i (get_or keys.now i 0) }
    ensures { MatchOption result
        (Absent keys.now memo key.0)
        (λ i. (i < memo) × Absent keys.now i key.0 × (get_or keys.now i 0 ≡ key.0)) }
{
    let k = key.0;
    let left = passed(keys, memo, k);
    keys[..left].iter().rposition(|other| *other == k)
}

// The same: at once where no number is so great, or where the numbers were put in order.
pub fn slot(keys: &[u32], memo: usize, greatest: usize, key: MemoKey) -> Option<usize>
    requires { (memo ≤ length keys.now) × (0 < length keys.now) × Numbered keys.now memo greatest }
    ensures { MatchOption result
        (Absent keys.now memo key.0)
        (λ i. (i < memo) × Absent keys.now i key.0 × (get_or keys.now i 0 ≡ key.0)) }
{
    let k = key.0;
    if greatest <= k as usize {
        return None;
    }
    let first = keys[0];
    if first <= k {
        let guess = (k - first) as usize;
        if guess < memo && keys[guess] == k {
            return Some(guess);
        }
    }
    search(keys, memo, key)
}

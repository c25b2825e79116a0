// The effects of the opcodes on the rooms (the second half of `Decoder`'s methods: push, push_id, put, extend): each tests the limits of
// RULES A3.1, in the order of A4.4, and then writes only the rooms that it changes. On a refusal no room is changed.
ghost use Rattle.std.specs.Prelude.{cond, ◌≡◌, ◌+◌, ◌-◌, ◌*◌, ◌^◌, ◌%◌, ◌<◌, ◌≤◌, length, get_or};
ghost use Rattle.value.specs.Shape.{state_in};
ghost use Rattle.machine.specs.Done.{pushed_to};
ghost use Rattle.machine.specs.Push.{PushNode, PushId, PutMark};
ghost use Rattle.machine.specs.Links.{filled_by, Linkable, LinkAll};
ghost use Rattle.machine.specs.Containers.{Makeable, MakesNode, Extendable, Extends};
ghost use Rattle.machine.specs.Memo.{Rememberable, Remembers};
ghost use Rattle.machine.specs.Words.{Buildable, SetsState};

use refusal::Refusal;
use store::{Counts, MemoKey, NodeId, slot};

// The limits of RULES A3.1: the rooms are at least so long.
const NODES: usize = 4096;

const LINKS: usize = 8192;

const STACK: usize = 2048;

const MARKS: usize = 256;

const MEMO: usize = 1024;

// The counts with a value more on the stack.
fn pushed(c: Counts, nodes: usize, links: usize) -> Counts
    requires { c.stack < 2048 }
    ensures { result ≡ pushed_to c nodes links }
{
    let stack = c.stack + 1;
    Counts {
        nodes,
        links,
        stack,
        deepest: c.deepest.max(stack),
        ..c
    }
}

// A node with its two words and no links: NodesFull, then StackFull.
pub fn push_node(
    nodes: &mut [u64],
    stack: &mut [u16],
    c: Counts,
    a: u64,
    b: u64,
) -> Result<Counts, Refusal>
    requires { (8192 ≤ length nodes.old) × (2048 ≤ length stack.old) }
    ensures { PushNode nodes.old stack.old c a b nodes.new stack.new result }
{
    if NODES <= c.nodes {
        return Err(Refusal::NodesFull);
    }
    if STACK <= c.stack {
        return Err(Refusal::StackFull);
    }
    let first = 2 * c.nodes;
    nodes[first] = a;
    nodes[first + 1] = b;
    stack[c.stack] = c.nodes as u16;
    Ok(pushed(c, c.nodes + 1, c.links))
}

// A node again: StackFull.
pub fn push_id(stack: &mut [u16], c: Counts, id: NodeId) -> Result<Counts, Refusal>
    requires { (2048 ≤ length stack.old) × (id.0 < 65536) }
    ensures { PushId stack.old c id.0 stack.new result }
{
    if STACK <= c.stack {
        return Err(Refusal::StackFull);
    }
    stack[c.stack] = id.0 as u16;
    Ok(pushed(c, c.nodes, c.links))
}

// The stack's length as a mark: MarksFull.
pub fn put_mark(marks: &mut [u16], c: Counts) -> Result<Counts, Refusal>
    requires { (256 ≤ length marks.old) × (c.stack ≤ 2048) }
    ensures { PutMark marks.old c marks.new result }
{
    if MARKS <= c.marks {
        return Err(Refusal::MarksFull);
    }
    marks[c.marks] = c.stack as u16;
    let marks = c.marks + 1;
    Ok(Counts {
        marks,
        most: c.most.max(marks),
        ..c
    })
}

// Links from `owner` to what stands on the stack from `from` to `to`, in order.
fn link_all(
    nodes: &mut [u64],
    owners: &mut [u16],
    children: &mut [u16],
    stack: &[u16],
    from: usize,
    to: usize,
    links: usize,
    owner: NodeId,
) -> usize
    requires { Linkable nodes.old owners.old children.old stack.now from to links owner.0 }
    ensures { (result ≡ links + (to - from)) × LinkAll
        nodes.old owners.old children.old stack.now from links owner.0 to
        nodes.new owners.new children.new result }
{
    let n = to - from;
    owners[links..links + n].fill(owner.0 as u16);
    children[links..links + n].copy_from_slice(&stack[from..to]);
    nodes[2 * owner.0 + 1] += n as u64; // the low half counts the items
    links + n
}

// A container of what stood above `c.stack`: LinksFull, NodesFull, then StackFull.
pub fn make(
    nodes: &mut [u64],
    owners: &mut [u16],
    children: &mut [u16],
    stack: &mut [u16],
    c: Counts,
    kind: u64,
    had: usize,
) -> Result<Counts, Refusal>
    requires { Makeable nodes.old owners.old children.old stack.old c kind had }
    ensures { MakesNode
        nodes.old owners.old children.old stack.old c kind had
        nodes.new owners.new children.new stack.new result }
{
    let items = had - c.stack;
    if LINKS - c.links < items {
        return Err(Refusal::LinksFull); // the first of the three
    }
    if NODES <= c.nodes {
        return Err(Refusal::NodesFull);
    }
    if STACK <= c.stack {
        return Err(Refusal::StackFull);
    }
    let id = c.nodes;
    nodes[2 * id] = kind;
    nodes[2 * id + 1] = c.links as u64 * store::HALF; // no items yet, and where its links begin
    let links = link_all(
        nodes,
        owners,
        children,
        stack,
        c.stack,
        had,
        c.links,
        NodeId(id),
    );
    stack[c.stack] = id as u16;
    Ok(pushed(c, id + 1, links))
}

// What stood above `c.stack` as items more of a container: LinksFull.
pub fn extend(
    nodes: &mut [u64],
    owners: &mut [u16],
    children: &mut [u16],
    stack: &[u16],
    c: Counts,
    owner: NodeId,
    had: usize,
) -> Result<Counts, Refusal>
    requires { Extendable nodes.old owners.old children.old stack.now c owner.0 had }
    ensures { Extends
        nodes.old owners.old children.old stack.now c owner.0 had
        nodes.new owners.new children.new result }
{
    if LINKS - c.links < had - c.stack {
        return Err(Refusal::LinksFull);
    }
    let links = link_all(nodes, owners, children, stack, c.stack, had, c.links, owner);
    Ok(Counts { links, ..c })
}

// An Object's first word with the mark that it has a state.
fn with_state(a: u64) -> u64
    requires { a < 0x100_0000 }
    ensures { result ≡ cond (state_in a) a (a + 32) }
{
    if a / store::STATE % 2 == 1 {
        return a;
    }
    a + store::STATE
}

// An Object's state, in place of any earlier one.
pub fn set_state(nodes: &mut [u64], c: Counts, object: NodeId, state: NodeId) -> Counts
    requires { Buildable nodes.old c object.0 state.0 }
    ensures { SetsState nodes.old c object.0 state.0 nodes.new result }
{
    let first = 2 * object.0;
    let second = first + 1;
    nodes[first] = with_state(nodes[first]);
    nodes[second] = state.0 as u64 * store::HALF + nodes[second] % store::HALF;
    c
}

// An entry of the memo: its number's node replaced, or one more; MemoFull.
pub fn remember(
    keys: &mut [u32],
    held: &mut [u16],
    c: Counts,
    key: MemoKey,
    id: NodeId,
) -> Result<Counts, Refusal>
    requires { Rememberable keys.old held.old c key.0 id.0 }
    ensures { Remembers keys.old held.old c key.0 id.0 keys.new held.new result }
{
    if let Some(place) = slot(keys, c.memo, c.greatest, key) {
        held[place] = id.0 as u16;
        return Ok(c);
    }
    if MEMO <= c.memo {
        return Err(Refusal::MemoFull);
    }
    keys[c.memo] = key.0;
    held[c.memo] = id.0 as u16;
    Ok(Counts {
        memo: c.memo + 1,
        greatest: c.greatest.max(key.0 as usize + 1),
        ..c
    })
}

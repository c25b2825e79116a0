// Replays the machine: standard input has pickles, each after its length in four bytes, low byte first; for each a line says what
// the machine does with it. Numbers are hexadecimal and of a fixed length: a step is the counts before an opcode in two words; at STOP
// the length read, the node on top of the stack, and then the rooms as they are used, in words.
#![tactic(auto)]

ghost use Rattle.std.specs.Prelude.{◌≤◌, length};
ghost use Rattle.store.specs.Effects.{Lengths};
ghost use Rattle.machine.specs.RoomsOf.{lent_rooms};
ghost use Rattle.replay_machine.specs.Shown.{CountsInRange};

use machine::{Outcome, Step, take_step};
use op::Edition;
use store::Counts;

// Place and links; stack, marks, memo and nodes.
fn show_step(c: Counts)
    requires { CountsInRange c }
{
    io::print_hex(1, c.at as u64 * 65536 + c.links as u64, 16);
    io::print_hex(
        1,
        ((c.stack as u64 * 65536 + c.marks as u64) * 65536 + c.memo as u64) * 65536
            + c.nodes as u64,
        16,
    );
}

// The run of `machine::run`, with the counts before each opcode shown.
fn steps(
    pickle: &[u8],
    nodes: &mut [u64],
    owners: &mut [u16],
    children: &mut [u16],
    stack: &mut [u16],
    marks: &mut [u16],
    keys: &mut [u32],
    held: &mut [u16],
) -> Outcome
    requires { Lengths (lent_rooms pickle.now nodes.old owners.old children.old stack.old marks.old keys.old held.old) }
{
    let mut c = Counts::default();
    loop {
        show_step(c);
        let t = take_step(
            Edition::Full,
            pickle,
            nodes,
            owners,
            children,
            stack,
            marks,
            keys,
            held,
            c,
        );
        match t {
            Ok(Step::Next(d)) => c = d,
            Ok(Step::Stop(d)) => return Outcome {
                counts: d,
                ended: Ok(()),
            },
            Err(why) => return Outcome {
                counts: c,
                ended: Err(why),
            },
        }
    }
}

// What the machine does with a pickle, in a line.
fn show(
    pickle: &[u8],
    nodes: &mut [u64],
    owners: &mut [u16],
    children: &mut [u16],
    stack: &mut [u16],
    marks: &mut [u16],
    keys: &mut [u32],
    held: &mut [u16],
)
    requires { Lengths (lent_rooms pickle.now nodes.old owners.old children.old stack.old marks.old keys.old held.old) }
{
    let run = steps(pickle, nodes, owners, children, stack, marks, keys, held);
    match run.ended {
        Ok(()) => show_stop(nodes, owners, children, stack, run.counts),
        Err(why) => show_refusal(refusal::number(why), refusal::detail(why)),
    }
}

fn show_refusal(number: u64, detail: u64) {
    io::write_all(1, b" refused ");
    io::print_decimal(1, number);
    io::write_all(1, b" ");
    io::print_decimal(1, detail);
    io::write_all(1, b"\n");
}

fn show_stop(nodes: &[u64], owners: &[u16], children: &[u16], stack: &[u16], c: Counts) {
    io::write_all(1, b" stopped ");
    io::print_decimal(1, c.at as u64);
    io::write_all(1, b" s");
    console::show_hex(console::first(stack, c.stack), 4);
    io::write_all(1, b" n");
    if c.nodes <= 4096 {
        console::show_hex(console::first(nodes, 2 * c.nodes), 16);
    }
    io::write_all(1, b" o");
    console::show_hex(console::first(owners, c.links), 4);
    io::write_all(1, b" c");
    console::show_hex(console::first(children, c.links), 4);
    io::write_all(1, b"\n");
}

// A pickle in rooms of its own, long enough for a run.
fn in_rooms(pickle: &[u8])
    requires { length pickle.now ≤ 65536 }
{
    let mut nodes = [0u64; 8192];
    let mut owners = [0u16; 8192];
    let mut children = [0u16; 8192];
    let mut stack = [0u16; 2048];
    let mut marks = [0u16; 256];
    let mut keys = [0u32; 1024];
    let mut held = [0u16; 1024];
    show(
        pickle,
        &mut nodes,
        &mut owners,
        &mut children,
        &mut stack,
        &mut marks,
        &mut keys,
        &mut held,
    );
}

// One case; false at the end of the input.
fn one(room: &mut [u8]) -> bool {
    let mut size = [0u8; 4];
    if io::read_full(0, &mut size) < 4 {
        return false;
    }
    let n = input::u32_at(&size, 0) as usize;
    if 65536 < n {
        return false;
    }
    if room.len() < n {
        return false;
    }
    if io::read_full(0, &mut room[0..n]) < n {
        return false;
    }
    in_rooms(&room[0..n]);
    true
}

// A million cases at most.
fn all(room: &mut [u8]) {
    for _ in 0..1_000_000usize {
        if !one(room) {
            return;
        }
    }
}

fn main() {
    let mut room = [0u8; 65536];
    all(&mut room);
}

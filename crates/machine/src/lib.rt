// The run of de.rs's `Decoder`: `decide` has the one match over the opcode byte and answers an effect, `apply` has it, `run` goes on to
// STOP. What it used of the rooms is cleared by the counts, by those who lend them.
#![tactic(auto)]

pub mod effects;

ghost use Rattle.steps.specs.Run.{step};
ghost use Rattle.store.specs.Effects.{SomeRooms, Decides, Lengths};
ghost use Rattle.machine.specs.RoomsOf.{rooms_of, lent_of, lent_rooms, Agrees};
ghost use Rattle.machine.specs.Applied.{Fitting, Applies};
ghost use Rattle.machine.specs.Ran.{SomeSound, StepTaken, Ran};

use crate::effects::{extend, make, push_id, push_node, put_mark, remember, set_state};
use decoder::KeyForm;
use op::{Edition, Objection};
use refusal::Refusal;
use store::{Counts, Effect};

// How the machine goes on after a step, or has stopped.
#[derive(Clone, Copy)]
pub enum Step {
    Next(Counts),
    Stop(Counts),
}

// Has an effect. It reads no pickle: what it does is right for all pickles with which the effect fits, and however the rooms were lent.
fn apply(
    nodes: &mut [u64],
    owners: &mut [u16],
    children: &mut [u16],
    stack: &mut [u16],
    marks: &mut [u16],
    keys: &mut [u32],
    held: &mut [u16],
    had: usize,
    e: Effect,
) -> Result<Step, Refusal>
    requires { Fitting e had (λ l p. rooms_of l p
        nodes.old owners.old children.old stack.old marks.old keys.old held.old) }
    ensures { Applies e had result
        (λ l p. rooms_of l p nodes.old owners.old children.old stack.old
        marks.old keys.old held.old)
        (λ l p. rooms_of l p nodes.new owners.new children.new stack.new
        marks.new keys.new held.new) }
{
    let next = match e {
        Effect::Push(c, a, b) => push_node(nodes, stack, c, a, b)?,
        Effect::Share(c, id) => push_id(stack, c, id)?,
        Effect::Mark(c) => put_mark(marks, c)?,
        Effect::Go(c) => c,
        Effect::Make(c, kind) => make(nodes, owners, children, stack, c, kind, had)?,
        Effect::Extend(c, owner) => extend(nodes, owners, children, stack, c, owner, had)?,
        Effect::Remember(c, id, _, key) => remember(keys, held, c, key, id)?,
        Effect::Build(c, object, state) => set_state(nodes, c, object, state),
        Effect::Stop(c) => return Ok(Step::Stop(c)),
    };
    Ok(Step::Next(next))
}

// What the edition has against the opcode byte, then the one match over it. TUPLE1 to TUPLE3 are a range.
fn decide(
    edition: Edition,
    pickle: &[u8],
    nodes: &[u64],
    children: &[u16],
    stack: &[u16],
    marks: &[u16],
    keys: &[u32],
    held: &[u16],
    c: Counts,
) -> Result<Effect, Refusal>
    requires { SomeRooms c (Agrees
        pickle.now nodes.now children.now stack.now marks.now keys.now held.now) }
    ensures { Decides c (Agrees
        pickle.now nodes.now children.now stack.now marks.now
        keys.now held.now) (step edition) result }
{
    if pickle.len() <= c.at {
        return Err(Refusal::EndOfInput);
    }
    let code = pickle[c.at];
    let d = Counts { at: c.at + 1, ..c };
    match op::against(edition, code) {
        Some(Objection::Outside) => Err(Refusal::OutsideProfile(code)),
        Some(Objection::Unknown) => Err(Refusal::UnsupportedOpcode(code)),
        None => match code {
            op::MARK => Ok(Effect::Mark(d)),
            op::STOP => Ok(Effect::Stop(d)),
            op::POP => decoder::pop(d),
            op::POP_MARK => decoder::pop_mark(marks, d),
            op::DUP => decoder::dup(stack, d),
            op::FLOAT => decoder::float(pickle, d),
            op::INT => decoder::int(pickle, d),
            op::BININT => decoder::binint(pickle, d),
            op::BININT1 => decoder::unsigned(pickle, d, 1),
            op::LONG => decoder::long(pickle, d),
            op::BININT2 => decoder::unsigned(pickle, d, 2),
            op::NONE => Ok(Effect::Push(d, value::KIND_NONE, 0)),
            op::REDUCE => decoder::reduce(pickle, nodes, children, stack, d),
            op::STRING => decoder::string(pickle, d),
            op::BINSTRING => decoder::binstring(pickle, d),
            op::SHORT_BINSTRING => decoder::short_binstring(pickle, d),
            op::UNICODE => decoder::unicode(pickle, d),
            op::BINUNICODE => decoder::binunicode(pickle, d),
            op::APPEND => decoder::append(nodes, stack, d),
            op::BUILD => decoder::build_state(nodes, stack, d),
            op::GLOBAL => decoder::global(pickle, d),
            op::DICT => decoder::dict(marks, d),
            op::EMPTY_DICT => Ok(Effect::Push(d, value::KIND_DICT, 0)),
            op::APPENDS => decoder::appends(nodes, stack, marks, d),
            op::GET => decoder::get_by(pickle, keys, held, d, KeyForm::Line),
            op::BINGET => decoder::get_by(pickle, keys, held, d, KeyForm::Byte),
            op::LONG_BINGET => decoder::get_by(pickle, keys, held, d, KeyForm::Word),
            op::LIST => decoder::list(marks, d),
            op::EMPTY_LIST => Ok(Effect::Push(d, value::KIND_LIST, 0)),
            op::PUT => decoder::put_by(pickle, stack, d, KeyForm::Line),
            op::BINPUT => decoder::put_by(pickle, stack, d, KeyForm::Byte),
            op::LONG_BINPUT => decoder::put_by(pickle, stack, d, KeyForm::Word),
            op::SETITEM => decoder::setitem(nodes, stack, d),
            op::TUPLE => decoder::tuple(marks, d),
            op::EMPTY_TUPLE => Ok(Effect::Push(d, value::KIND_TUPLE, 0)),
            op::SETITEMS => decoder::setitems(nodes, stack, marks, d),
            op::BINFLOAT => decoder::binfloat(pickle, d),
            op::PROTO => decoder::proto(pickle, d, op::highest(edition)),
            op::NEWOBJ => decoder::newobj(nodes, stack, d),
            op::NEWTRUE => Ok(Effect::Push(d, value::KIND_BOOL, 1)),
            op::NEWFALSE => Ok(Effect::Push(d, value::KIND_BOOL, 0)),
            op::LONG1 => decoder::long_n(d, decoder::long_at(pickle, d.at, 1)),
            op::LONG4 => decoder::long_n(d, decoder::long_at(pickle, d.at, 4)),
            0x85..=0x87 => decoder::small_tuple(d, code),
            _ => Err(Refusal::UnsupportedOpcode(code)),
        },
    }
}

// One step: the rooms and counts after it mean the definition's step of the state that they meant before, or its refusal.
pub fn take_step(
    edition: Edition,
    pickle: &[u8],
    nodes: &mut [u64],
    owners: &mut [u16],
    children: &mut [u16],
    stack: &mut [u16],
    marks: &mut [u16],
    keys: &mut [u32],
    held: &mut [u16],
    c: Counts,
) -> Result<Step, Refusal>
    requires { SomeSound c (λ l. rooms_of l pickle.now
        nodes.old owners.old children.old stack.old marks.old keys.old held.old) }
    ensures { StepTaken edition result c
        (λ l. rooms_of l pickle.now nodes.old owners.old children.old stack.old
        marks.old keys.old held.old)
        (λ l. rooms_of l pickle.now nodes.new owners.new children.new stack.new
        marks.new keys.new held.new) }
{
    let e = decide(
        edition, pickle, nodes, children, stack, marks, keys, held, c,
    )?;
    apply(
        nodes, owners, children, stack, marks, keys, held, c.stack, e,
    )
}

// What a run comes to: whether it ended at STOP, with the counts there, or those at the refusal.
#[derive(Clone, Copy)]
pub struct Outcome {
    pub counts: Counts,
    pub ended: Result<(), Refusal>,
}

// The run to STOP, in rooms that are long enough.
pub fn run(
    edition: Edition,
    pickle: &[u8],
    nodes: &mut [u64],
    owners: &mut [u16],
    children: &mut [u16],
    stack: &mut [u16],
    marks: &mut [u16],
    keys: &mut [u32],
    held: &mut [u16],
) -> Outcome
    requires { Lengths (lent_rooms pickle.now
        nodes.old owners.old children.old stack.old marks.old keys.old held.old) }
    ensures { Ran edition result pickle.now
        (rooms_of
        (lent_of nodes.old owners.old children.old stack.old
        marks.old keys.old held.old)
        pickle.now nodes.new owners.new children.new stack.new
        marks.new keys.new held.new) }
{
    let mut c = Counts::default();
    loop {
        let t = take_step(
            edition, pickle, nodes, owners, children, stack, marks, keys, held, c,
        );
        match t {
            Ok(Step::Next(d)) => c = d,
            Ok(Step::Stop(d)) => return Outcome {
                counts: d,
                ended: Ok(()),
            },
            Err(why) => return Outcome {
                counts: c,
                ended: Err(why),
            },
        }
    }
}

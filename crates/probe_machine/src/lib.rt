// For benchmarks only: the machine's run in rooms of its own, which it makes zero at each call, for a driver in another language.
#![tactic(auto)]

use machine::Outcome;
use op::Edition;
use refusal::{Answer, Refusal};

fn answered(run: Outcome) -> Answer {
    match run.ended {
        Ok(()) => Answer {
            number: 0,
            detail: 0,
            length: run.counts.at as u64,
            count: run.counts.nodes as u64,
        },
        Err(why) => refusal::refused(why),
    }
}

// The run to STOP: how much it read, and how many nodes it made.
#[unsafe(no_mangle)]
pub extern "C" fn probe_machine(pickle: &[u8]) -> Answer {
    if 65536 < pickle.len() {
        return refusal::refused(Refusal::TooLong);
    }
    let mut nodes = [0u64; 8192];
    let mut owners = [0u16; 8192];
    let mut children = [0u16; 8192];
    let mut stack = [0u16; 2048];
    let mut marks = [0u16; 256];
    let mut keys = [0u32; 1024];
    let mut held = [0u16; 1024];
    answered(machine::run(
        Edition::Full,
        pickle,
        &mut nodes,
        &mut owners,
        &mut children,
        &mut stack,
        &mut marks,
        &mut keys,
        &mut held,
    ))
}

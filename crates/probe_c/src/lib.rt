// For benchmarks only: `probe`'s call for a driver in another language.
#![tactic(auto)]

use probe::Literal;

// The literal at the start of a pickle, and STOP.
#[unsafe(no_mangle)]
pub extern "C" fn probe_literal(pickle: &[u8], room: &mut [u8]) -> Literal {
    probe::probe_literal(pickle, room)
}

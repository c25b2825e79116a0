// The machine of de.rs as definitions, with the laws of every step; store has its rooms, decoder the code of its opcodes.
#![tactic(auto)]

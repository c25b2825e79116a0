// The two readings of a pickle, and Builder of de.rs: definitions and laws only, in specs/.
#![tactic(auto)]

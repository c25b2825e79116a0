// The profile for plain data against the full reader: definitions and laws only, in specs/.
#![tactic(auto)]

// What kinds of value each opcode takes and leaves, and its protocol, against pickletools. Definitions and laws only.
#![tactic(auto)]

// Out and back: what is written is read back as it was. Definitions and laws only.
#![tactic(auto)]

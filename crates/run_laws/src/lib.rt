// Laws of a run and its readings: which numbers are whose, a run step by step, what lists and dicts keep. Definitions and laws only.
#![tactic(auto)]

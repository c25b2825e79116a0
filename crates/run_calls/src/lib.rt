// Laws of a run and its readings, of the public calls: definitions and laws only, in specs/.
#![tactic(auto)]

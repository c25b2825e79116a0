// Reading and then scoring, of the public calls: definitions and laws only, in specs/.
#![tactic(auto)]

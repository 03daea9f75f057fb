// What a faulty circuit differs in from the golden run: definitions and laws.
#![tactic(auto)]

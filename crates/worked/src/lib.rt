// The worked numbers of the rules (RULES, "Worked numbers"), proved of the definitions: see specs/Worked.antt. There is no code here.

#![tactic(auto)]

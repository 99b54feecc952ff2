// What a contract leaves no choice in: see specs/Promised.antt. There is no code here.

#![tactic(auto)]

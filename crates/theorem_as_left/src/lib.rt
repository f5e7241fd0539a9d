// What holds of every segment that calls leave (specs/). There is no program code here.
#![tactic(auto)]

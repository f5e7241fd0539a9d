// Demand 3: one theorem over every list of calls that begins with an opening (specs/). There is no program code here.
#![tactic(auto)]

// 01's table of examples, proved line by line (specs/). There is no program code here.
#![tactic(auto)]

// No code: one answer of everything, demands 2 and 3 in their own words, the starred table.
#![tactic(auto)]

// The fourteen fields of document 01's table "Quantities and codes", side by side, and what is proved of all of them: one
// answer to each call, sets that do not meet, and a code that keeps its value however often it travels. No code.
#![tactic(auto)]

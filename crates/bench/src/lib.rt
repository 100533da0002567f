// The bench cases of document 01. Its table of rows and the theorem stand in specs/Bench.antt.
#![tactic(auto)]

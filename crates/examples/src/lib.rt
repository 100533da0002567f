// Small tables for computed examples. The definitions are in specs/.
#![tactic(auto)]

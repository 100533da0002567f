// The two conversions between orders and round plans. Document 01, "Numbers by who causes them".
#![tactic(auto)]

// The chain that evaluates a plan, as definitions and lemmas for any rule and any scale. There is no code here.
#![tactic(auto)]

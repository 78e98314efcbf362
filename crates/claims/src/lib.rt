// Nothing to run: what is promised stands in specs/, that it holds in proofs/.
#![tactic(auto)]

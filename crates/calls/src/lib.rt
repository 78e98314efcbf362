// Nothing to run: what is promised of every call stands in specs/, that it holds in proofs/.
#![tactic(auto)]

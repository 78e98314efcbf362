// Nothing to run: laws about what a newer code table changes (`rules`, specs/Differences.antt) stand in proofs/.
#![tactic(auto)]

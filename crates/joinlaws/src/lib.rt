// Nothing to run: laws about joined code tables (`rules`, specs/Join.antt) stand in proofs/.
#![tactic(auto)]

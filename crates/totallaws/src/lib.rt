// Nothing to run: laws about totals (`rules`, specs/Totals.antt) stand in proofs/.
#![tactic(auto)]

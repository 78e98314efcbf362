// Nothing to run: laws about comma-separated text (`rules`, specs/Csv.antt and Utf8.antt) stand in proofs/.
#![tactic(auto)]

// No code: what is claimed of the calls, in specs/, and its proofs.
#![tactic(auto)]

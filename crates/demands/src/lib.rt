// The three demands, what a grade means and what another limit of machines would change: their statements in specs/, their proofs in proofs/. There is no code.
#![tactic(auto)]

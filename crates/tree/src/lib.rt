// The tree file: its definitions are in specs/, its theorems in proofs/.

#![tactic(auto)]

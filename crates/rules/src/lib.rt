// What is reduced, what is an effect, and the theorem that what goes has no effect: definitions in specs/, theorems in proofs/.

#![tactic(auto)]

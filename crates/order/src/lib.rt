// Demand 3, for whoever wants to know what is promised, and the theorems about every state that calls can reach: the statement is
// Demand.antt in specs/, and Lib.antt in proofs/ says how the files there lead to its proof. No code.

#![tactic(auto)]

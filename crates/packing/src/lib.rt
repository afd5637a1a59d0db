// The packed table is the same catalogue: theorems in specs/, about the model's definitions alone. No code.

#![tactic(auto)]

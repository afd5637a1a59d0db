// What every call keeps, of any well-formed state, reached or made by hand: theorems in specs/. No code.

#![tactic(auto)]

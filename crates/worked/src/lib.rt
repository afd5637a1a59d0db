// Worked schedules that take long to compute, proved in specs/ under the statement of the model's tables. No code.

#![tactic(auto)]

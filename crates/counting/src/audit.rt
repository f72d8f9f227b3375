// Two further facts about what already runs, for auditors (K14): what the order of rules changes, and what a further rule does. These are
// theorems of the calls on a sheet: there is no code here.

// What is written for a rule reads back as that rule. These are theorems of writing and reading: there is no code here.

// How many words fit a list of rules, and which: definitions and their laws, and no code.

// The names that are kept are those that were said. These are theorems of keeping names: there is no code here.

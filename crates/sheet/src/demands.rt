// Demands 2 and 3 over any list of calls, that going forward after going back gives the sheet from before, and that no second outcome
// satisfies a call's statement. These are theorems of the calls on a sheet: there is no code here.

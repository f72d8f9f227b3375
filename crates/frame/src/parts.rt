// An input may be cut before any accepted opening, and the parts answered by different desks. These are theorems of the exchange: there
// is no code here.

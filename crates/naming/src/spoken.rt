// Names on the pages of the clerk: theorems alone, there is no code here.

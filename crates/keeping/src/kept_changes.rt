// What the calls on a sheet that a caller keeps do to its numbers, and that no call has a second outcome. There is no code here.

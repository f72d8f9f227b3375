// The rows of the grammar.

use crate::grammar::kind::Kind;
use crate::grammar::kind::Kind::{
    Above, Amount, And, Ask, At, AtLeast, AtMost, Back, Below, Colon, Count, End, Equals, For,
    Forward, From, Least, List, Mark, Most, Name, Negative, Not, Number, Plus, Settled, Show,
    Signed, Since, UpTo, Watts, Why, Within, Word, X,
};
use crate::grammar::{KINDS, Place};

// The rows, with the end of the line after the last kind of each: rules, what stands before a rule, and the other statements.
pub const GRAMMAR: [[Kind; KINDS]; Place::ROWS] = [
    [X, AtMost, Number, End, End, End, End], // x <= 9
    [X, Below, Number, End, End, End, End], // x < 9
    [X, AtLeast, Number, End, End, End, End], // x >= 9
    [X, Above, Number, End, End, End, End], // x > 9
    [X, Equals, Number, End, End, End, End], // x = 9
    [X, Plus, Number, AtMost, Number, End, End], // x + 5 <= 3
    [X, Plus, Number, AtMost, X, Plus, Number], // x + 1 <= x + 2
    [Number, AtMost, X, Plus, Number, End, End], // 3 <= x + 5
    [X, And, Number, Equals, Number, End, End], // x & 12 = 4
    [Signed, X, AtMost, Number, End, End, End], // signed x <= 3
    [Signed, X, AtMost, Negative, End, End, End], // signed x <= -3
    [Number, AtMost, Signed, X, End, End, End], // 3 <= signed x
    [Negative, AtMost, Signed, X, End, End, End], // -3 <= signed x
    [Settled, Since, Number, For, Number, End, End], // settled since 14 for 3
    [Not, End, End, End, End, End, End], // not
    [Watts, At, Least, Amount, End, End, End], // watts at least 5.5
    [Watts, At, Most, Amount, End, End, End], // watts at most 20
    [Watts, Within, Amount, UpTo, Amount, End, End], // watts within 5.5 .. 20
    [Name, Colon, End, End, End, End, End], // name :
    [Word, Number, End, End, End, End, End], // word 16
    [Mark, End, End, End, End, End, End], // mark
    [Back, End, End, End, End, End, End], // back
    [Forward, End, End, End, End, End, End], // forward
    [Ask, End, End, End, End, End, End], // ask
    [Count, End, End, End, End, End, End], // count
    [List, Number, End, End, End, End, End], // list 9
    [List, From, Number, Number, End, End, End], // list from 3 9
    [Why, Number, End, End, End, End, End], // why 9
    [Show, End, End, End, End, End, End], // show
];

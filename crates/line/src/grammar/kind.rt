// Kinds of what a line is made of: the words and signs of the grammar, and what has no text of its own.

ghost use Rattle.std.specs.Prelude.{◌≡◌};
ghost use Rattle.line.specs.grammar.Kinds.{letters_of};

/// What a word, a sign or a number of a line is, or what was expected in its place.
#[derive(Clone, Copy, PartialEq, Eq)]
pub enum Kind {
    /// The end of the line.
    End,
    X,
    Plus,
    AtMost,
    Below,
    AtLeast,
    Above,
    Equals,
    And,
    UpTo,
    Colon,
    Not,
    Signed,
    Settled,
    Since,
    For,
    Watts,
    At,
    Least,
    Most,
    Within,
    Word,
    Mark,
    Back,
    Forward,
    Ask,
    Count,
    List,
    From,
    Why,
    Show,
    /// A whole number.
    Number,
    /// A whole number below zero.
    Negative,
    /// A number of watts.
    Amount,
    /// A number with a point.
    Fraction,
    /// A word that is none of the grammar's.
    Name,
    /// What is nothing at all.
    Other,
    /// A number past 64 bits.
    Large,
    /// A statement, where any may begin.
    Statement,
    /// A rule, where only rules are open.
    Rule,
    /// A number that a signed word has.
    SignedWord,
    /// A line that is not too long.
    ShorterLine,
}

/// The kinds that have a text: the words and signs of the grammar.
pub const WORDS: [Kind; 30] = [
    Kind::X,
    Kind::Plus,
    Kind::AtMost,
    Kind::Below,
    Kind::AtLeast,
    Kind::Above,
    Kind::Equals,
    Kind::And,
    Kind::UpTo,
    Kind::Colon,
    Kind::Not,
    Kind::Signed,
    Kind::Settled,
    Kind::Since,
    Kind::For,
    Kind::Watts,
    Kind::At,
    Kind::Least,
    Kind::Most,
    Kind::Within,
    Kind::Word,
    Kind::Mark,
    Kind::Back,
    Kind::Forward,
    Kind::Ask,
    Kind::Count,
    Kind::List,
    Kind::From,
    Kind::Why,
    Kind::Show,
];

impl Kind {
    /// The text of a word or a sign of the grammar; what is none of them has none.
    pub fn text(self) -> &'static str
        ensures { result.now ≡ letters_of self }
    {
        match self {
            Kind::X => "x",
            Kind::Plus => "+",
            Kind::AtMost => "<=",
            Kind::Below => "<",
            Kind::AtLeast => ">=",
            Kind::Above => ">",
            Kind::Equals => "=",
            Kind::And => "&",
            Kind::UpTo => "..",
            Kind::Colon => ":",
            Kind::Not => "not",
            Kind::Signed => "signed",
            Kind::Settled => "settled",
            Kind::Since => "since",
            Kind::For => "for",
            Kind::Watts => "watts",
            Kind::At => "at",
            Kind::Least => "least",
            Kind::Most => "most",
            Kind::Within => "within",
            Kind::Word => "word",
            Kind::Mark => "mark",
            Kind::Back => "back",
            Kind::Forward => "forward",
            Kind::Ask => "ask",
            Kind::Count => "count",
            Kind::List => "list",
            Kind::From => "from",
            Kind::Why => "why",
            Kind::Show => "show",
            _ => "",
        }
    }
}

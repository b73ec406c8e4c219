//! The signs and reserved words of the language.
ghost use Rattle.std.specs.Prelude.{◌≡◌};
ghost use Rattle.sync_lex.specs.Signs.{is_same, spelling_of, sign_of};

use crate::bytes::ends_in_digit;

/// A sign or a reserved word.
#[derive(Clone, Copy, PartialEq, Eq, Debug)]
pub enum Sign {
    /// `{`
    OpenBrace,
    /// `}`
    CloseBrace,
    /// `(`
    OpenRound,
    /// `)`
    CloseRound,
    /// `[`
    OpenSquare,
    /// `]`
    CloseSquare,
    /// `,`
    Comma,
    /// `;`
    Semicolon,
    /// `:`
    Colon,
    /// `?`
    Question,
    /// `@`
    Label,
    /// `$`
    Dollar,
    /// `!`
    Bang,
    /// `*`
    Star,
    /// `/`
    Slash,
    /// `%`
    Percent,
    /// `+`
    Plus,
    /// `-`
    Minus,
    /// `=`
    Equal,
    /// `<`
    Below,
    /// `!=`
    NotEqual,
    /// `<=`
    AtMost,
    /// `>=`
    AtLeast,
    /// `+=`
    PlusEqual,
    /// `-=`
    MinusEqual,
    /// `->`
    Arrow,
    /// `=>`
    MapsTo,
    /// `==>`
    Implies,
    /// `&&`
    And,
    /// `||`
    Or,
    /// `version`
    Version,
    /// `machine`
    Machine,
    /// `field`
    Field,
    /// `init`
    Init,
    /// `transition`
    Transition,
    /// `property`
    Property,
    /// `invariant`
    Invariant,
    /// `require`
    Require,
    /// `assert`
    Assert,
    /// `update`
    Update,
    /// `have`
    Have,
    /// `guard`
    Guard,
    /// `add`
    Add,
    /// `deposit`
    Deposit,
    /// `remove`
    Remove,
    /// `withdraw`
    Withdraw,
    /// `nil`
    Nil,
    /// `value`
    Value,
    /// `index`
    Index,
    /// `old`
    Old,
    /// `new`
    New,
    /// `wrap`
    Wrap,
    /// `get`
    Get,
    /// `has`
    Has,
    /// `size`
    Size,
    /// `sum`
    Sum,
    /// `put`
    Put,
    /// `del`
    Del,
    /// `bump`
    Bump,
    /// `held`
    Held,
    /// `proofs`
    Proofs,
    /// `keeps`
    Keeps,
    /// `at`
    At,
    /// `by`
    By,
    /// `same`
    Same,
    /// `inst`
    Inst,
    /// `as`
    As,
    /// `parts`
    Parts,
    /// `split`
    Split,
    /// `cut`
    Cut,
    /// `read`
    Read,
    /// `total`
    Total,
    /// `cong`
    Cong,
    /// `denied`
    Denied,
    /// `low`
    Low,
    /// `high`
    High,
    /// `program`
    Program,
    /// `word`
    Word,
    /// `with`
    With,
    /// `holds`
    Holds,
    /// `when`
    When,
    /// `fact`
    Fact,
    /// `cell`
    Cell,
    /// `perm`
    Perm,
    /// `start`
    Start,
    /// `seal`
    Seal,
    /// `give`
    Give,
    /// `no`
    No,
    /// `thread`
    Thread,
    /// `ends`
    Ends,
    /// `final`
    Final,
    /// `store`
    Store,
    /// `write`
    Write,
    /// `print`
    Print,
    /// `if`
    If,
    /// `else`
    Else,
    /// `join`
    Join,
    /// `loop`
    Loop,
    /// `from`
    From,
    /// `after`
    After,
    /// `next`
    Next,
    /// `break`
    Break,
    /// `meet`
    Meet,
    /// `end`
    End,
    /// `peek`
    Peek,
    /// `via`
    Via,
    /// `load`
    Load,
    /// `swap`
    Swap,
    /// `sub`
    Sub,
    /// `cas`
    Cas,
    /// `proof`
    Proof,
    /// `open`
    Open,
    /// `case`
    Case,
    /// `yes`
    Yes,
    /// `close`
    Close,
    /// `still`
    Still,
    /// `let`
    Let,
    /// `do`
    Do,
    /// `merge`
    Merge,
    /// `copy`
    Copy,
    /// `move`
    Move,
}

/// All signs and reserved words.
pub const SIGNS: [Sign; 121] = [
    Sign::Implies,
    Sign::NotEqual,
    Sign::AtMost,
    Sign::AtLeast,
    Sign::PlusEqual,
    Sign::MinusEqual,
    Sign::Arrow,
    Sign::MapsTo,
    Sign::And,
    Sign::Or,
    Sign::OpenBrace,
    Sign::CloseBrace,
    Sign::OpenRound,
    Sign::CloseRound,
    Sign::OpenSquare,
    Sign::CloseSquare,
    Sign::Comma,
    Sign::Semicolon,
    Sign::Colon,
    Sign::Question,
    Sign::Label,
    Sign::Dollar,
    Sign::Bang,
    Sign::Star,
    Sign::Slash,
    Sign::Percent,
    Sign::Plus,
    Sign::Minus,
    Sign::Equal,
    Sign::Below,
    Sign::Version,
    Sign::Machine,
    Sign::Field,
    Sign::Init,
    Sign::Transition,
    Sign::Property,
    Sign::Invariant,
    Sign::Require,
    Sign::Assert,
    Sign::Update,
    Sign::Have,
    Sign::Guard,
    Sign::Add,
    Sign::Deposit,
    Sign::Remove,
    Sign::Withdraw,
    Sign::Nil,
    Sign::Value,
    Sign::Index,
    Sign::Old,
    Sign::New,
    Sign::Wrap,
    Sign::Get,
    Sign::Has,
    Sign::Size,
    Sign::Sum,
    Sign::Put,
    Sign::Del,
    Sign::Bump,
    Sign::Held,
    Sign::Proofs,
    Sign::Keeps,
    Sign::At,
    Sign::By,
    Sign::Same,
    Sign::Inst,
    Sign::As,
    Sign::Parts,
    Sign::Split,
    Sign::Cut,
    Sign::Read,
    Sign::Total,
    Sign::Cong,
    Sign::Denied,
    Sign::Low,
    Sign::High,
    Sign::Program,
    Sign::Word,
    Sign::With,
    Sign::Holds,
    Sign::When,
    Sign::Fact,
    Sign::Cell,
    Sign::Perm,
    Sign::Start,
    Sign::Seal,
    Sign::Give,
    Sign::No,
    Sign::Thread,
    Sign::Ends,
    Sign::Final,
    Sign::Store,
    Sign::Write,
    Sign::Print,
    Sign::If,
    Sign::Else,
    Sign::Join,
    Sign::Loop,
    Sign::From,
    Sign::After,
    Sign::Next,
    Sign::Break,
    Sign::Meet,
    Sign::End,
    Sign::Peek,
    Sign::Via,
    Sign::Load,
    Sign::Swap,
    Sign::Sub,
    Sign::Cas,
    Sign::Proof,
    Sign::Open,
    Sign::Case,
    Sign::Yes,
    Sign::Close,
    Sign::Still,
    Sign::Let,
    Sign::Do,
    Sign::Merge,
    Sign::Copy,
    Sign::Move,
];

/// The spelling of a sign, out of a table of all of them.
macro_rules! written {
    ($sign:expr; $($name:ident $spelling:literal),*) => {
        match $sign {
            $(Sign::$name => $spelling,)*
        }
    };
}

impl Sign {
    /// How it is written.
    #[tactic(auto, unfolding(crate::specs::Signs::spelling_of))]
    pub fn spelling(self) -> &'static str
        ensures { result.now ≡ spelling_of self }
    {
        written! {
            self;
            OpenBrace "{", CloseBrace "}", OpenRound "(", CloseRound ")", OpenSquare "[",
            CloseSquare "]", Comma ",", Semicolon ";", Colon ":", Question "?", Label "@",
            Dollar "$", Bang "!", Star "*", Slash "/", Percent "%", Plus "+", Minus "-", Equal "=",
            Below "<", NotEqual "!=", AtMost "<=", AtLeast ">=", PlusEqual "+=", MinusEqual "-=",
            Arrow "->", MapsTo "=>", Implies "==>", And "&&", Or "||", Version "version",
            Machine "machine", Field "field", Init "init", Transition "transition",
            Property "property", Invariant "invariant", Require "require", Assert "assert",
            Update "update", Have "have", Guard "guard", Add "add", Deposit "deposit",
            Remove "remove", Withdraw "withdraw", Nil "nil", Value "value", Index "index",
            Old "old", New "new", Wrap "wrap", Get "get", Has "has", Size "size", Sum "sum",
            Put "put", Del "del", Bump "bump", Held "held", Proofs "proofs", Keeps "keeps",
            At "at", By "by", Same "same", Inst "inst", As "as", Parts "parts", Split "split",
            Cut "cut", Read "read", Total "total", Cong "cong", Denied "denied", Low "low",
            High "high", Program "program", Word "word", With "with", Holds "holds", When "when",
            Fact "fact", Cell "cell", Perm "perm", Start "start", Seal "seal", Give "give",
            No "no", Thread "thread", Ends "ends", Final "final", Store "store", Write "write",
            Print "print", If "if", Else "else", Join "join", Loop "loop", From "from",
            After "after", Next "next", Break "break", Meet "meet", End "end", Peek "peek",
            Via "via", Load "load", Swap "swap", Sub "sub", Cas "cas", Proof "proof", Open "open",
            Case "case", Yes "yes", Close "close", Still "still", Let "let", Do "do",
            Merge "merge", Copy "copy", Move "move"
        }
    }

    /// Whether the two are one sign.
    pub fn is(self, other: Sign) -> bool
        ensures { result ≡ is_same self other }
    {
        self == other
    }
}

/// The sign or reserved word that is written so.
#[tactic(auto, unfolding(crate::specs::Signs::sign_of))]
pub fn sign_of(bytes: &[u8]) -> Option<Sign>
    ensures { result ≡ sign_of bytes.now }
{
    if ends_in_digit(bytes) {
        return None;
    }
    SIGNS
        .iter()
        .copied()
        .find(|sign| sign.spelling().as_bytes() == bytes)
}

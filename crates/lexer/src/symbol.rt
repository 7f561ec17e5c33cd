//! The symbols of the language.
ghost use Rattle.std.specs.Prelude.{◌≡◌, ◌≢◌, [], ◌∷◌, MatchOption};
ghost use Rattle.lexer.specs.declared.symbol.Symbol.{Symbol};
ghost use Rattle.lexer.specs.Spelling.{symbol_spelling};

/// A symbol.
#[derive(Clone, Copy, Debug, PartialEq, Eq)]
pub enum Symbol {
    /// `(`
    OpenParenthesis,
    /// `)`
    CloseParenthesis,
    /// `[`
    OpenBracket,
    /// `]`
    CloseBracket,
    /// `{`
    OpenBrace,
    /// `}`
    CloseBrace,
    /// `,`
    Comma,
    /// `;`
    Semicolon,
    /// `:`
    Colon,
    /// `.`
    Dot,
    /// `=`
    Assign,
    /// `==`
    Equal,
    /// `!=`
    NotEqual,
    /// `<`
    Less,
    /// `<=`
    LessOrEqual,
    /// `>`
    Greater,
    /// `>=`
    GreaterOrEqual,
    /// `+`
    Plus,
    /// `-`
    Minus,
    /// `*`
    Star,
    /// `/`
    Slash,
    /// `%`
    Percent,
    /// `->`
    Arrow,
    /// `+=`
    PlusAssign,
    /// `min=`
    MinAssign,
    /// `max=`
    MaxAssign,
}

/// The symbol of these two bytes, if there is one.
pub fn pair_symbol(first: u8, second: u8) -> Option<Symbol>
    ensures { MatchOption result
        ((symbol : Symbol) → symbol_spelling symbol ≢ first ∷ second ∷ [])
        (λ symbol. symbol_spelling symbol ≡ first ∷ second ∷ []) }
{
    match (first, second) {
        (b'=', b'=') => Some(Symbol::Equal),
        (b'!', b'=') => Some(Symbol::NotEqual),
        (b'<', b'=') => Some(Symbol::LessOrEqual),
        (b'>', b'=') => Some(Symbol::GreaterOrEqual),
        (b'-', b'>') => Some(Symbol::Arrow),
        (b'+', b'=') => Some(Symbol::PlusAssign),
        _ => None,
    }
}

/// The symbol of this one byte, if there is one.
pub fn single_symbol(byte: u8) -> Option<Symbol>
    ensures { MatchOption result
        ((symbol : Symbol) → symbol_spelling symbol ≢ byte ∷ [])
        (λ symbol. symbol_spelling symbol ≡ byte ∷ []) }
{
    match byte {
        b'(' => Some(Symbol::OpenParenthesis),
        b')' => Some(Symbol::CloseParenthesis),
        b'[' => Some(Symbol::OpenBracket),
        b']' => Some(Symbol::CloseBracket),
        b'{' => Some(Symbol::OpenBrace),
        b'}' => Some(Symbol::CloseBrace),
        b',' => Some(Symbol::Comma),
        b';' => Some(Symbol::Semicolon),
        b':' => Some(Symbol::Colon),
        b'.' => Some(Symbol::Dot),
        b'=' => Some(Symbol::Assign),
        b'<' => Some(Symbol::Less),
        b'>' => Some(Symbol::Greater),
        b'+' => Some(Symbol::Plus),
        b'-' => Some(Symbol::Minus),
        b'*' => Some(Symbol::Star),
        b'/' => Some(Symbol::Slash),
        b'%' => Some(Symbol::Percent),
        _ => None,
    }
}

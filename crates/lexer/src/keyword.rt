//! The reserved words of the language.
ghost use Rattle.std.specs.Prelude.{◌≡◌, ◌≢◌, IfNone, IfSome};
ghost use Rattle.lexer.specs.declared.keyword.Keyword.{Keyword};
ghost use Rattle.lexer.specs.Spelling.{keyword_spelling};
ghost use Rattle.lexer.specs.inside.Spelling.{place_of};

/// A reserved word. Each is spelled as its variant, with a small first letter unless it says otherwise.
#[derive(Clone, Copy, Debug, PartialEq, Eq)]
pub enum Keyword {
    Element,
    Vertex,
    Edge,
    End,
    EdgeSet,
    VertexSet,
    Vector,
    Int,
    Bool,
    Const,
    Var,
    Func,
    While,
    For,
    In,
    If,
    Else,
    Print,
    True,
    False,
    And,
    Or,
    Not,
    New,
    Load,
    Argv,
    Schedule,
    Program,
    From,
    To,
    Apply,
    ApplyModified,
    Filter,
    GetVertices,
    GetOutDegrees,
    AddVertex,
    GetVertexSetSize,
    ConfigApplyDirection,
    ConfigApplyParallelization,
    ConfigApplyDenseVertexSet,
    FuseApplyFunctions,
    FuseFields,
}

impl Keyword {
    /// How the keyword is spelled.
    #[inline]
    pub fn spelling(self) -> &'static [u8]
        ensures { result.now ≡ keyword_spelling self }
    {
        match self {
            Keyword::Element => b"element",
            Keyword::Vertex => b"Vertex",
            Keyword::Edge => b"Edge",
            Keyword::End => b"end",
            Keyword::EdgeSet => b"edgeset",
            Keyword::VertexSet => b"vertexset",
            Keyword::Vector => b"vector",
            Keyword::Int => b"int",
            Keyword::Bool => b"bool",
            Keyword::Const => b"const",
            Keyword::Var => b"var",
            Keyword::Func => b"func",
            Keyword::While => b"while",
            Keyword::For => b"for",
            Keyword::In => b"in",
            Keyword::If => b"if",
            Keyword::Else => b"else",
            Keyword::Print => b"print",
            Keyword::True => b"true",
            Keyword::False => b"false",
            Keyword::And => b"and",
            Keyword::Or => b"or",
            Keyword::Not => b"not",
            Keyword::New => b"new",
            Keyword::Load => b"load",
            Keyword::Argv => b"argv",
            Keyword::Schedule => b"schedule",
            Keyword::Program => b"program",
            Keyword::From => b"from",
            Keyword::To => b"to",
            Keyword::Apply => b"apply",
            Keyword::ApplyModified => b"applyModified",
            Keyword::Filter => b"filter",
            Keyword::GetVertices => b"getVertices",
            Keyword::GetOutDegrees => b"getOutDegrees",
            Keyword::AddVertex => b"addVertex",
            Keyword::GetVertexSetSize => b"getVertexSetSize",
            Keyword::ConfigApplyDirection => b"configApplyDirection",
            Keyword::ConfigApplyParallelization => b"configApplyParallelization",
            Keyword::ConfigApplyDenseVertexSet => b"configApplyDenseVertexSet",
            Keyword::FuseApplyFunctions => b"fuseApplyFunctions",
            Keyword::FuseFields => b"fuseFields",
        }
    }
}

/// The keyword of each place. [`place`] says which place is a keyword's.
static KEYWORDS: [Option<Keyword>; 100] = [
    None,
    None,
    None,
    None,
    Some(Keyword::To),
    Some(Keyword::ConfigApplyDirection),
    Some(Keyword::AddVertex),
    None,
    Some(Keyword::EdgeSet),
    None,
    Some(Keyword::ConfigApplyDenseVertexSet),
    Some(Keyword::ConfigApplyParallelization),
    None,
    Some(Keyword::Else),
    Some(Keyword::Apply),
    None,
    Some(Keyword::Element),
    None,
    Some(Keyword::Vertex),
    None,
    None,
    None,
    Some(Keyword::ApplyModified),
    None,
    None,
    None,
    None,
    None,
    Some(Keyword::While),
    Some(Keyword::False),
    None,
    None,
    None,
    None,
    None,
    None,
    None,
    None,
    Some(Keyword::Filter),
    Some(Keyword::New),
    Some(Keyword::GetVertices),
    None,
    Some(Keyword::GetOutDegrees),
    Some(Keyword::Var),
    None,
    Some(Keyword::GetVertexSetSize),
    None,
    None,
    Some(Keyword::Func),
    None,
    Some(Keyword::Vector),
    None,
    None,
    Some(Keyword::VertexSet),
    Some(Keyword::FuseFields),
    None,
    None,
    None,
    None,
    Some(Keyword::If),
    Some(Keyword::And),
    None,
    Some(Keyword::FuseApplyFunctions),
    None,
    Some(Keyword::End),
    Some(Keyword::Argv),
    None,
    Some(Keyword::In),
    Some(Keyword::Int),
    None,
    Some(Keyword::From),
    None,
    None,
    Some(Keyword::Edge),
    None,
    None,
    None,
    Some(Keyword::Or),
    None,
    None,
    None,
    Some(Keyword::Print),
    None,
    Some(Keyword::Program),
    Some(Keyword::True),
    None,
    None,
    None,
    Some(Keyword::Bool),
    None,
    Some(Keyword::Const),
    Some(Keyword::For),
    None,
    None,
    None,
    None,
    None,
    Some(Keyword::Schedule),
    Some(Keyword::Load),
    Some(Keyword::Not),
];

/// The keyword that is spelled so, if there is one. Capital and small letters differ.
#[inline]
pub fn keyword_of(text: &[u8]) -> Option<Keyword>
    ensures found { IfSome result (λ keyword. text.now ≡ keyword_spelling keyword) }
    ensures none { IfNone result ((keyword : Keyword) → text.now ≢ keyword_spelling keyword) }
{
    let keyword = KEYWORDS[place(text)]?;
    if keyword.spelling() == text {
        Some(keyword)
    } else {
        None
    }
}

/// A place in the table, found by the length and the first two bytes. No two keywords have the same.
#[inline]
fn place(text: &[u8]) -> usize
    ensures { result ≡ place_of text.now }
{
    match (text.first(), text.get(1)) {
        (Some(first), Some(second)) => (text.len() % 100
            + usize::from(*first)
            + 26 * usize::from(*second))
            % 100,
        _ => 0,
    }
}

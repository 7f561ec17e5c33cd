//! Where the statements of `main` are in a text.

use lexer::{Keyword, LexError, Symbol, Token, TokenKind, tokens};
use std::alloc::{AllocError, Global};

/// The offset of the statement of `main` that has this number, counted from 1 in the order of the text, a block before its
/// body; that of its label where it has one. There is none in a text that is no program, or that has fewer statements. The only
/// error is out of memory.
pub(crate) fn statement_at(
    alloc: Global,
    text: &[u8],
    number: u64,
) -> Result<Option<usize>, AllocError> {
    let all = match tokens(alloc, text) {
        Ok(all) => all,
        Err(LexError::NoMemory) => return Err(AllocError),
        Err(_) => return Ok(None),
    };
    Ok(numbered(body_of_main(text, &all), number))
}

// The tokens from the one that closes the parentheses of `main` on, or none.
fn body_of_main<'a>(text: &[u8], all: &'a [Token]) -> &'a [Token] {
    'tokens: for i in 0..all.len() {
        if all[i].kind == TokenKind::Keyword(Keyword::Func)
            && i + 3 < all.len()
            && all[i + 1].span.slice_of(text) == b"main".as_slice()
        {
            return &all[i + 3..];
        }
    }
    &[]
}

// The offset of the statement of this number in tokens that begin before the first statement.
fn numbered(body: &[Token], number: u64) -> Option<usize> {
    let mut left = number;
    'tokens: for i in 1..body.len() {
        if begins_statement(body[i].kind) && may_end_statement(body[i - 1].kind) {
            if left <= 1 {
                return Some(body[i].span.start);
            }
            left -= 1;
        }
    }
    None
}

// Whether a statement may begin with the token.
fn begins_statement(kind: TokenKind) -> bool {
    match kind {
        TokenKind::Name | TokenKind::Label => true,
        TokenKind::Keyword(keyword) => match keyword {
            Keyword::Var | Keyword::While | Keyword::For | Keyword::If | Keyword::Print => true,
            _ => false,
        },
        TokenKind::Number(_) | TokenKind::Text | TokenKind::Symbol(_) => false,
    }
}

// Whether a statement may begin after the token: it ends a statement, or the expression at the head of a block.
fn may_end_statement(kind: TokenKind) -> bool {
    match kind {
        TokenKind::Name | TokenKind::Number(_) => true,
        TokenKind::Symbol(symbol) => match symbol {
            Symbol::Semicolon | Symbol::CloseParenthesis | Symbol::CloseBracket => true,
            _ => false,
        },
        TokenKind::Keyword(keyword) => match keyword {
            Keyword::End | Keyword::Else | Keyword::True | Keyword::False => true,
            _ => false,
        },
        TokenKind::Label | TokenKind::Text => false,
    }
}

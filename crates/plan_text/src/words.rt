//! Words at the end of a text.
ghost use Rattle.std.specs.Prelude.{◌≡◌, ◌≢◌, ◌++◌, ◌∷◌, [], List, ℕ, OnOk};
ghost use Rattle.plan_text.specs.inside.Rows.{times};
ghost use Rattle.plan_text.specs.Expressions.{spaced_words, spaced};

use std::alloc::AllocError;

/// Puts a word, and a space after it.
pub(crate) fn put_word(out: &mut Vec<u8>, word: &[u8]) -> Result<(), AllocError>
    ensures { OnOk result (out.new.items ≡ out.old.items ++ spaced (word.now ∷ [])) }
{
    out.extend_from_slice(word)?;
    out.push(b' ')?;
    Ok(())
}

/// Puts a word that is written in two parts.
pub(crate) fn put_marked(out: &mut Vec<u8>, word: &[u8], mark: &[u8]) -> Result<(), AllocError>
    ensures { OnOk result (out.new.items ≡ out.old.items ++ spaced ((word.now ++ mark.now) ∷ [])) }
{
    out.extend_from_slice(word)?;
    put_word(out, mark)
}

/// Puts a word so many times.
pub(crate) fn put_times(out: &mut Vec<u8>, word: &[u8], count: usize) -> Result<(), AllocError>
    ensures { OnOk result (out.new.items ≡ out.old.items ++ spaced (times count word.now)) }
{
    'times: for _time in 0..count {
        put_word(out, word)?;
    }
    Ok(())
}

/// Begins the brackets of an expression.
pub(crate) fn open_bracket(out: &mut Vec<u8>) -> Result<(), AllocError>
    ensures { OnOk result (out.new.items ≡ out.old.items ++ 91 ∷ []) }
{
    out.push(b'[')?;
    Ok(())
}

/// Ends them after the last word, in place of the space there, and puts a space.
pub(crate) fn close_bracket(out: &mut Vec<u8>) -> Result<(), AllocError>
    ensures { OnOk result ((before : List ℕ) (ws : List (List ℕ)) → ws ≢ [] → out.old.items ≡ before ++ spaced ws
        → out.new.items ≡ before ++ (spaced_words ws ++ spaced ((93 ∷ []) ∷ []))) }
{
    out.pop();
    put_word(out, b"]")
}

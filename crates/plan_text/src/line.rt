//! Lines of words.
ghost use Rattle.std.specs.Prelude.{◌≡◌, ◌≢◌, ◌++◌, ◌∷◌, [], List, ℕ, OnOk};
ghost use Rattle.plan_text.specs.Expressions.{spaced_words, spaced};

use std::alloc::AllocError;

/// Makes a line of the words at the end of a text: a line feed comes in place of the space after the last one. The only
/// error is out of memory.
pub fn end_line(out: &mut Vec<u8>) -> Result<(), AllocError>
    ensures { OnOk result ((before : List ℕ) (ws : List (List ℕ)) → ws ≢ [] → out.old.items ≡ before ++ spaced ws
        → out.new.items ≡ before ++ (spaced_words ws ++ 10 ∷ [])) }
{
    out.pop();
    out.push(b'\n')?;
    Ok(())
}

//! A whole source.
ghost use Rattle.std.specs.Prelude.{◌≡◌, ℕ, List, Ok, IfOk, OnOk};
ghost use Rattle.syntax.specs.SourceSpelling.{source_terminals};
ghost use Rattle.syntax.specs.SourceViews.{source_tree};
ghost use Rattle.syntax.specs.SourceTrees.{SourceTree};
ghost use Rattle.parser.specs.Outcome.{Parses};
ghost use Rattle.source_text.specs.ReadBack.{IsSourceReadBack, IsWritable};
ghost use Rattle.source_text.specs.Text.{text_of};
ghost use Rattle.source_text.specs.inside.Written.{Puts, elements_before};

use crate::declaration::put_declarations;
use crate::schedule::put_schedule;
use crate::terminals::put_keyword;
use lexer::Keyword;
use std::alloc::{AllocError, Global};
use syntax::Source;

/// The text of a source: one statement a line, a space after each other terminal. `parse` reads it back to the
/// same source, but for the offsets, where the source is one that a text can have; each that `parse` answers
/// with is. A source that is built by hand may hold what no text has, such as a keyword for a name: it is
/// written as it is.
///
/// The one error is that memory runs out. The time is in proportion to the length of the text; no call goes deeper
/// than the source nests, and only the text itself takes memory.
pub fn write(alloc: Global, source: &Source) -> Result<Vec<u8>, AllocError>
    ensures text { IfOk result (λ text. text.items ≡ text_of (source_terminals (source_tree source.now))) }
    ensures read_back { IfOk result (λ text. IsWritable (source_tree source.now) → IsSourceReadBack text.items (source_tree source.now)) }
{
    let mut out = Vec::new(alloc);
    put_elements(&mut out)?;
    put_declarations(&mut out, &source.declarations)?;
    put_schedule(&mut out, &source.schedule)?;
    Ok(out)
}

/// The law that each source that a text is can be written. The call does nothing.
pub fn parsed_sources_are_writable()
    ensures { (text : List ℕ) (source : SourceTree) → Parses text (Ok source) → IsWritable source }
{}

/// Puts `element Vertex end element Edge end` down.
fn put_elements(out: &mut Vec<u8>) -> Result<(), AllocError>
    ensures { OnOk result (Puts elements_before out.old.items out.new.items) }
{
    put_keyword(out, Keyword::Element)?;
    put_keyword(out, Keyword::Vertex)?;
    put_keyword(out, Keyword::End)?;
    put_keyword(out, Keyword::Element)?;
    put_keyword(out, Keyword::Edge)?;
    put_keyword(out, Keyword::End)
}

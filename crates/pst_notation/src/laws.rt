//! Laws of the canonical text. No function here does anything: what it ensures is the law.

ghost use Rattle.pst_grammar.specs.View.{text_of};
ghost use Rattle.pst_notation.specs.Laws.{HasItsTokens, HasNoFault, ReadsBack, ReadsAsNoOther, DropsLines, KeepsTokens, KeepsTree};

use pst_grammar::Tree;

/// The canonical text of a tree whose names are names and whose numbers are numbers: it has the tokens of the tree, lines
/// apart, and no fault, and is read as the tree, lines apart, and as no other. It does not depend on lines, so that
/// printing what was read from it gives it again.
pub fn canonical_text_reads_as_its_tree(tree: &Tree)
    ensures tokens { HasItsTokens (text_of tree.now) }
    ensures no_fault { HasNoFault (text_of tree.now) }
    ensures program { ReadsBack (text_of tree.now) }
    ensures no_other { ReadsAsNoOther (text_of tree.now) }
    ensures no_lines { DropsLines (text_of tree.now) }
{
    let _ = tree;
}

/// The canonical text of a tree that a text was read as: it has the same tokens as that text, places and lines apart, and
/// is read as that tree, lines apart, and as no other.
pub fn canonical_text_keeps_what_was_read(text: &[u8], tree: &Tree)
    ensures tokens { KeepsTokens text.now tree.now }
    ensures program { KeepsTree text.now tree.now }
{
    let _ = text;
    let _ = tree;
}

//! What holds of the definitions alone.

ghost use Rattle.std.specs.Prelude.{◌≡◌, List, Some, None, map};
ghost use Rattle.ranked.specs.Entries.{Entry};
ghost use Rattle.ranked.specs.First.{IsFirst};
ghost use Rattle.midl_lex.specs.Pieces.{Piece};
ghost use Rattle.midl_words.specs.Words.{terminal_of};
ghost use Rattle.midl_tree.specs.Trees.{SourceTree};
ghost use Rattle.midl_parse.specs.Files.{IsSource};
ghost use Rattle.midl_parse.specs.Entries.{Parsing};

/// Tokens have at most one tree.
pub fn one_tree()
    ensures { (pieces : List Piece) (a b : SourceTree) → IsSource (map terminal_of pieces) a → IsSource (map terminal_of pieces) b → a ≡ b }
{}

/// Tokens that have a tree have no fault, and tokens that have none have a first one.
pub fn tree_or_fault(_file: u32)
    ensures none { (pieces : List Piece) (tree : SourceTree) → IsSource (map terminal_of pieces) tree → IsFirst (Parsing _file pieces) None }
    ensures first { (pieces : List Piece) → ((tree : SourceTree) → ¬ (IsSource (map terminal_of pieces) tree)) → (e : Entry) × IsFirst (Parsing _file pieces) (Some e) }
{}

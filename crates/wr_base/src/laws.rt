//! What holds of the definitions alone.

ghost use Rattle.std.specs.Prelude.{◌≡◌, Some};
ghost use Rattle.wr_base.specs.declared.type_use.Base.{Base};
ghost use Rattle.wr_base.specs.declared.type_use.TypeUse.{TypeUse};
ghost use Rattle.wr_base.specs.declared.declaration.Declaration.{Declaration};
ghost use Rattle.wr_base.specs.Uses.{text_of, word_of};
ghost use Rattle.wr_base.specs.Words.{base_of_word};
ghost use Rattle.wr_base.specs.Trees.{UseTree, DeclTree, tree_of, decl_tree, text_of_tree};
ghost use Rattle.wr_base.specs.FromTrees.{use_of_tree, decl_of_tree};

/// A use and a declaration are told by their trees, and each tree is that of one.
pub fn told_by_trees()
    ensures uses { (use_ : TypeUse) → use_of_tree (tree_of use_) ≡ use_ }
    ensures use_trees { (tree : UseTree) → tree_of (use_of_tree tree) ≡ tree }
    ensures texts { (use_ : TypeUse) → text_of_tree (tree_of use_) ≡ text_of use_ }
    ensures declarations { (declaration : Declaration) → decl_of_tree (decl_tree declaration) ≡ declaration }
    ensures decl_trees { (tree : DeclTree) → decl_tree (decl_of_tree tree) ≡ tree }
{}

/// The word of a fundamental type is one of its words.
pub fn words_of_bases()
    ensures { (base : Base) → base_of_word (word_of base) ≡ Some base }
{}

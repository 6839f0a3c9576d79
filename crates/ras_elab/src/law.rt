//! What makes the tree of a file one with its placed file, as a function that does nothing.

ghost use Rattle.ras_syntax.specs.Grammar.{IsFile};
ghost use Rattle.ras_syntax.specs.Places.{of_file, words};
ghost use Rattle.ras_syntax.specs.declared.tree.File as tree;
ghost use Rattle.ras_names.specs.PlacedTokens.{IsFileOf};
ghost use Rattle.ras_scope.specs.Placing.{placed_file};

/// The tokens of a tree that are a file are those of its placed file.
pub fn a_tree_is_a_placed_file()
    ensures { (file : tree.File) → IsFile (words (of_file file)) → IsFileOf (of_file file) (placed_file file) }
{}

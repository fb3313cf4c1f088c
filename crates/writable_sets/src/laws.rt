//! What the rules and limits leave is what an image is written of.

ghost use Rattle.std.specs.Prelude.{◌≡◌, ◌≤◌, List, None, length, map};
ghost use Rattle.std.specs.List.{All, AllByRecursion};
ghost use Rattle.sig_blobs.specs.Elements.{system_guid};
ghost use Rattle.winmd_sets.specs.Fits.{DeclFits};
ghost use Rattle.winmd_sets.specs.Types.{all_parts_of, sum_of};
ghost use Rattle.wr_base.specs.Declarations.{declared_as};
ghost use Rattle.wr_base.specs.Trees.{decl_tree};
ghost use Rattle.wr_base.specs.declared.declaration.Declaration.{Declaration};
ghost use Rattle.wr_rules.specs.Accepted.{Accepted};
ghost use Rattle.writable_sets.specs.Stated.{IsStated, NoGuid};

/// An accepted set whose full names are paths, whose numbers have their widths and in which no use is a value of `System.Guid` is one that the rows of an image state whole.
pub fn accepted_is_writable()
    // Each declaration has names, cases, uses and lists that rows can state.
    ensures each { (types : List Declaration) → Accepted types → All (IsStated types) types → NoGuid types → AllByRecursion DeclFits (map decl_tree types) }
    // There are at most 20,000 types,
    ensures few { (types : List Declaration) → Accepted types → length types ≤ 20000 }
    // with 500,000 parts and parameters together.
    ensures small { (types : List Declaration) → Accepted types → sum_of all_parts_of (map decl_tree types) ≤ 500000 }
{}

/// Where no declaration of an accepted set is called `System.Guid` no use is a value of it.
pub fn guid_is_the_base_type()
    ensures { (types : List Declaration) → Accepted types → declared_as types system_guid ≡ None → NoGuid types }
{}

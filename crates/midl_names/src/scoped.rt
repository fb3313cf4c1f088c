ghost use Rattle.std.specs.Prelude.{◌≡◌, ◌++◌, map, IsTrue};
ghost use Rattle.wr_base.specs.Paths.{is_path};
ghost use Rattle.midl_tree.specs.Views.{decl_view};
ghost use Rattle.midl_names.specs.Items.{own_name, prefix};

use midl_tree::{AttributeNode, DeclNode, Ident};
use wr_base::FullName;

/// A declaration with the parts of its namespace and its attributes.
#[derive(Debug, Drop)]
pub(crate) struct Scoped<'a> {
    pub(crate) file: u32,
    pub(crate) space: Vec<&'a Ident>,
    pub(crate) full: FullName,
    pub(crate) attributes: Vec<&'a AttributeNode>,
    pub(crate) tree: &'a DeclNode,
    ghost named: { full ≡ prefix (map (λ t. t.now.text) space.items) ++ (own_name (decl_view tree.now)).text },
    ghost path: { IsTrue (is_path full) },
}

//! Ids by the texts of what has them.

ghost use Rattle.std.specs.Prelude.{◌≡◌, map, Contains, IfOk, IfSome, IfNone};
ghost use Rattle.wr_base.specs.Sets.{set_by};

use crate::same::same_lists;
use crate::sets::in_order;
use crate::{Name, Same};
use sqlite_items::Items;
use std::alloc::{AllocError, Global};
use std::marker::Model;

/// The id of the interface, delegate or instance of this text.
#[derive(Debug, Drop)]
pub struct UseId {
    pub text: Name,
    pub id: u128,
}

impl Clone for UseId {
    ghost is_clone = { λ a b. b ≡ a };

    fn clone(&self) -> Result<UseId, AllocError> {
        Ok(UseId {
            text: self.text.clone()?,
            id: self.id,
        })
    }
}

/// Ids in the order of the texts by bytes, each text once.
#[derive(Debug, Drop)]
pub struct Ids {
    items: Vec<UseId>,
}

impl Model for Ids {
    ghost use Rattle.std.specs.Prelude.{List};
    ghost use Rattle.wr_base.specs.declared.ids.UseId.{UseId};
    ghost use Rattle.wr_base.specs.Ids.{IsListing};

    ghost Value = { List UseId };

    ghost view = { λ t. t.items.items };

    ghost invariant = { λ t. IsListing t.items.items };
}

impl Ids {
    ghost use Rattle.wr_base.specs.Ids.{id_text, IsListing};

    /// The listing of these; of two with one text the first stands.
    pub fn from_list(alloc: Global, list: Vec<UseId>) -> Result<Ids, AllocError>
        ensures { IfOk result (λ ids. ids ≡ set_by id_text list.items) }
    {
        Ok(Ids {
            items: in_order(alloc, Items::from_vec(list))?,
        })
    }

    /// All, in the order of the texts.
    pub fn as_slice(&self) -> &[UseId]
        ensures value { result.now ≡ self.now }
        ensures order { IsListing self.now }
    {
        self.items.as_slice()
    }

    /// The id of this text, where it is listed.
    pub fn id(&self, text: &str) -> Option<u128>
        ensures found { IfSome result (λ id. Contains self.now (record { text = text.now; id = id })) }
        ensures absent { IfNone result (¬ (Contains (map id_text self.now) text.now)) }
    {
        let items = self.items.as_slice();
        match items.binary_search_by(|entry| entry.text.as_str().cmp(text)) {
            Ok(at) => Some(items[at].id),
            Err(_) => None,
        }
    }
}

impl Clone for Ids {
    ghost is_clone = { λ a b. b ≡ a };

    fn clone(&self) -> Result<Ids, AllocError> {
        Ok(Ids {
            items: self.items.clone()?,
        })
    }
}

impl Same for Ids {
    fn same(&self, other: &Ids) -> bool {
        same_lists(self.items.as_slice(), other.items.as_slice())
    }
}

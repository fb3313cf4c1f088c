//! Images of one enum and of sets of all five kinds with some of their bytes written over.

ghost use Rattle.std.specs.Prelude.{◌≡◌, map};
ghost use Rattle.winmd_examples.specs.Edits.{wanted};
ghost use Rattle.winmd_examples.specs.MixEdits as mixed;
ghost use Rattle.winmd_examples.specs.ShopEdits as shop;
ghost use Rattle.winmd_examples.specs.SizeEdits as sized;

/// Each edited image of one enum states what stands beside it, or has that fault: of headers, of streams, of the tables' stream, of rows.
pub fn size_edits_state()
    ensures states { map sized.found sized.states ≡ map wanted sized.states }
    ensures headers { map sized.found sized.headers ≡ map wanted sized.headers }
    ensures stream { map sized.found sized.stream ≡ map wanted sized.stream }
    ensures rows { map sized.found sized.rows ≡ map wanted sized.rows }
    ensures others { map sized.found sized.others ≡ map wanted sized.others }
{}

/// Each edited image states what stands beside it, or has that fault: delegates, classes, interfaces, enums, lists of rows.
pub fn shop_edits_state()
    ensures delegates { map shop.found shop.delegates ≡ map wanted shop.delegates }
    ensures classes { map shop.found shop.classes ≡ map wanted shop.classes }
    ensures interfaces { map shop.found shop.interfaces ≡ map wanted shop.interfaces }
    ensures enums { map shop.found shop.enums ≡ map wanted shop.enums }
    ensures lists { map shop.found shop.lists ≡ map wanted shop.lists }
{}

/// The same of structs, instances and overloads.
pub fn mix_edits_state()
    ensures structs { map mixed.found mixed.structs ≡ map wanted mixed.structs }
    ensures instances { map mixed.found mixed.instances ≡ map wanted mixed.instances }
{}

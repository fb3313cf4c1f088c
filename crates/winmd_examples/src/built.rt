//! Images with other tables, names and attributes.

ghost use Rattle.std.specs.Prelude.{◌≡◌, map};
ghost use Rattle.winmd_examples.specs.Built.{wanted};
ghost use Rattle.winmd_examples.specs.BuiltLimits as limits;
ghost use Rattle.winmd_examples.specs.BuiltLists as lists;
ghost use Rattle.winmd_examples.specs.BuiltTypes as typed;

/// Each image states what stands beside it, or has that fault: lists of rows, types, attributes, limits of names.
pub fn built_images_state()
    ensures lists { map lists.found lists.lists ≡ map wanted lists.lists }
    ensures types { map typed.found typed.types_ ≡ map wanted typed.types_ }
    ensures attributes { map typed.found typed.attributed ≡ map wanted typed.attributed }
    ensures names { map limits.found limits.names ≡ map wanted limits.names }
{}

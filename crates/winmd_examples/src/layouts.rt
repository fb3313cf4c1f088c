//! Images of one enum that are laid out in other ways than those that are written.

ghost use Rattle.std.specs.Prelude.{◌≡◌, [], ◌∷◌, Ok};
ghost use Rattle.winmd_examples.specs.Layouts.{
  one_section,
  long_addresses,
  two_sections,
  another_order,
  long_texts,
  long_guids,
  long_blobs,
  all_long,
  size_7,
  length_of_two,
  length_of_four,
  long_value,
};
ghost use Rattle.winmd_examples.specs.Size.{size};
ghost use Rattle.winmd_strict.specs.Reading.{TypesOf};

/// With addresses of eight bytes, with its metadata in the second section, with its streams in another order and without `#US`, with indices of four
/// bytes into each heap: the image states the enum.
pub fn layouts_state()
    ensures one_section { TypesOf one_section ≡ Ok (size ∷ []) }
    ensures long_addresses { TypesOf long_addresses ≡ Ok (size ∷ []) }
    ensures two_sections { TypesOf two_sections ≡ Ok (size ∷ []) }
    ensures another_order { TypesOf another_order ≡ Ok (size ∷ []) }
    ensures long_texts { TypesOf long_texts ≡ Ok (size ∷ []) }
    ensures long_guids { TypesOf long_guids ≡ Ok (size ∷ []) }
    ensures long_blobs { TypesOf long_blobs ≡ Ok (size ∷ []) }
    ensures all_long { TypesOf all_long ≡ Ok (size ∷ []) }
{}

/// The length of a blob in two and in four bytes, where it could be shorter and where it can't.
pub fn long_lengths_state()
    ensures of_two { TypesOf length_of_two ≡ Ok (size_7 ∷ []) }
    ensures of_four { TypesOf length_of_four ≡ Ok (size_7 ∷ []) }
    ensures long_value { TypesOf long_value ≡ Ok (size_7 ∷ []) }
{}

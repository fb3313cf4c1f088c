//! The definitions at worked examples.

ghost use Rattle.std.specs.Prelude.{◌≡◌, ℕ, suc, List, [], ◌∷◌, ◌++◌, codes, Ok};
ghost use Rattle.md_schema.specs.declared.table.Table.TheVariants as tables;
ghost use Rattle.md_schema.specs.declared.faults.ImageKind.TheVariants as kinds;
ghost use Rattle.winmd_rows.specs.Faults.{fault};
ghost use Rattle.winmd_rows.specs.Values.{Value, stated, stated_row};
ghost use Rattle.wr_base.specs.Trees.{enum, struct};
ghost use Rattle.winmd_sets.specs.Fits.{Fits};
ghost use Rattle.winmd_sets.specs.Rows.{rows_of};
ghost use Rattle.winmd_sets.specs.Types.{types_of, set_of};
ghost use Rattle.winmd_sets.specs.Shop.{shop};
ghost use Rattle.winmd_sets.specs.Mix.{mix};
ghost use Rattle.winmd_sets.specs.Examples.{point, size, system_enum, places, reading, with_rows, also, changed, point_fields, marked_by_own, split_name};

/// Two sets fit, and their rows state them.
pub fn examples_are_as_defined()
    ensures shop_fits { Fits shop }
    ensures mix_fits { Fits mix }
    ensures shop_read { reading (stated (rows_of shop)) ≡ Ok shop }
    ensures mix_read { reading (stated (rows_of mix)) ≡ Ok mix }
{}

/// A name in `System` is referred to by a TypeRef, also from the rows of the type of that name.
pub fn outside_is_referred_to()
    ensures refs { rows_of (system_enum ∷ []) tables.TypeRef
        ≡ (Value.To tables.AssemblyRef 1 ∷ Value.Text (codes "E") ∷ Value.Text (codes "System") ∷ [])
        ∷ (Value.To tables.AssemblyRef 1 ∷ Value.Text (codes "Enum") ∷ Value.Text (codes "System") ∷ [])
        ∷ (Value.To tables.AssemblyRef 2 ∷ Value.Text (codes "VersionAttribute") ∷ Value.Text (codes "Windows.Foundation.Metadata") ∷ []) ∷ [] }
    ensures fields { rows_of (system_enum ∷ []) tables.Field
        ≡ (Value.Number 0x0601 ∷ Value.Text (codes "value__") ∷ Value.Blob (0x06 ∷ 0x08 ∷ []) ∷ [])
        ∷ (Value.Number 0x8056 ∷ Value.Text (codes "A") ∷ Value.Blob (0x06 ∷ 0x11 ∷ 5 ∷ []) ∷ []) ∷ [] }
    ensures read { reading (stated (rows_of (system_enum ∷ []))) ≡ Ok (system_enum ∷ []) }
{}

/// One image for each point in which a wrong reading would be taken for right: what is a fault, where it stands, and what is none.
pub fn faults_are_as_defined()
    ensures generic { reading (also tables.GenericParam (Value.Number 0 ∷ Value.Number 0 ∷ Value.To tables.TypeDef 2 ∷ Value.Text (codes "T") ∷ []) (stated (rows_of (point ∷ [])))) ≡ fault kinds.GenericDefinition (places tables.GenericParam 0 2) }
    ensures generic_method { reading (also tables.GenericParam (Value.Number 0 ∷ Value.Number 0 ∷ Value.To tables.MethodDef 1 ∷ Value.Text (codes "T") ∷ []) (stated (rows_of (point ∷ [])))) ≡ Ok (point ∷ []) }
    ensures nested { reading (also tables.NestedClass (Value.To tables.TypeDef 2 ∷ Value.To tables.TypeDef 1 ∷ []) (stated (rows_of (point ∷ [])))) ≡ fault kinds.Nested (places tables.NestedClass 0 0) }
    ensures encloses { reading (also tables.NestedClass (Value.To tables.TypeDef 1 ∷ Value.To tables.TypeDef 2 ∷ []) (stated (rows_of (point ∷ [])))) ≡ Ok (point ∷ []) }
    ensures two_versions { reading (with_rows tables.CustomAttribute (stated (rows_of (point ∷ [])) tables.CustomAttribute ++ stated (rows_of (point ∷ [])) tables.CustomAttribute) (stated (rows_of (point ∷ [])))) ≡ fault kinds.BadShape (places tables.TypeDef 1 0) }
    ensures own_attribute { reading (marked_by_own (stated (rows_of (point ∷ [])))) ≡ Ok (struct (codes "A.B") 7 point_fields ∷ []) }
    ensures twice { reading (stated (rows_of (point ∷ point ∷ []))) ≡ fault kinds.BadShape (places tables.TypeDef 1 1) }
    ensures last_type { set_of (record { rows = stated (rows_of []); offset = places }) 19999 0 ((2, point) ∷ []) ≡ Ok (point ∷ []) }
    ensures many_types { set_of (record { rows = stated (rows_of []); offset = places }) 20000 0 ((2, point) ∷ []) ≡ fault kinds.PastLimit (places tables.TypeDef 1 0) }
    ensures last_part { set_of (record { rows = stated (rows_of []); offset = places }) 0 499999 ((2, point) ∷ []) ≡ Ok (point ∷ []) }
    ensures many_parts { set_of (record { rows = stated (rows_of []); offset = places }) 0 500000 ((2, point) ∷ []) ≡ fault kinds.PastLimit (places tables.TypeDef 1 0) }
    ensures list_at_0 { reading (also tables.PropertyMap (Value.To tables.TypeDef 1 ∷ Value.To tables.Property 0 ∷ []) (also tables.Property (Value.Number 0 ∷ Value.Text (codes "P") ∷ Value.Blob [] ∷ []) (stated (rows_of (point ∷ []))))) ≡ fault kinds.RowRange (places tables.PropertyMap 0 1) }
    ensures list_of_none { reading (also tables.PropertyMap (Value.To tables.TypeDef 1 ∷ Value.To tables.Property 1 ∷ []) (also tables.Property (Value.Number 0 ∷ Value.Text (codes "P") ∷ Value.Blob [] ∷ []) (stated (rows_of (point ∷ []))))) ≡ Ok (point ∷ []) }
    ensures module_row { reading (changed tables.TypeDef 0 (Value.Number 0x4001 ∷ Value.Text (codes "<Module>") ∷ Value.Text (codes "N") ∷ Value.To tables.TypeRef 0 ∷ Value.To tables.Field 1 ∷ Value.To tables.MethodDef 1 ∷ []) (stated (rows_of (point ∷ [])))) ≡ Ok (point ∷ []) }
    ensures joined { reading (split_name (stated (rows_of (point ∷ [])))) ≡ Ok (point ∷ []) }
    ensures holder { reading (changed tables.Field 0 (Value.Number 0x0601 ∷ Value.Text (codes "value_") ∷ Value.Blob (0x06 ∷ 0x08 ∷ []) ∷ []) (stated (rows_of (size ∷ [])))) ≡ fault kinds.BadShape (places tables.Field 0 1) }
    ensures holder_type { reading (changed tables.Field 0 (Value.Number 0x0601 ∷ Value.Text (codes "value_") ∷ Value.Blob (0x06 ∷ 0x0C ∷ []) ∷ []) (stated (rows_of (size ∷ [])))) ≡ fault kinds.FloatType (places tables.Field 0 2) }
{}

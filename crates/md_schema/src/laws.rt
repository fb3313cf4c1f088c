//! Coded indices: reading and writing undo each other.

ghost use Rattle.std.specs.Prelude.{◌≡◌, ◌≤◌, ◌^◌, ◌++◌, ℕ, List, Option, IfSome, length};
ghost use Rattle.md_schema.specs.declared.table.Table.{Table};
ghost use Rattle.md_schema.specs.declared.column.CodedIndex.{CodedIndex};
ghost use Rattle.md_schema.specs.Codes.{target_of, code_of};
ghost use Rattle.md_schema.specs.declared.sizes.Sizes.{Sizes};
ghost use Rattle.md_schema.specs.Schema.{bits_of, choices_of};
ghost use Rattle.md_schema.specs.Tables.{raw, rows_end, sizes_of};
ghost use Rattle.md_schema.specs.Written.{table_bytes, Fit};

/// What is encoded is decoded again, at any list of tables that its tag bits can tell apart.
pub fn encoded_is_decoded()
    ensures { (bits : ℕ) (choices : List (Option Table)) (table : Table) (row : ℕ) → length choices ≤ 2 ^ bits →
        IfSome (code_of bits choices table row) (λ raw. target_of bits choices raw ≡ Some (table, row)) }
{}

/// What is decoded is encoded again, at each coded index.
pub fn decoded_is_encoded()
    ensures { (index : CodedIndex) (raw : ℕ) →
        IfSome (target_of (bits_of index) (choices_of index) raw)
        (λ named. code_of (bits_of index) (choices_of index) named.0 named.1 ≡ Some raw) }
{}

/// What is written as a stream of tables is read from it, with any bytes behind: sizes, the end of the rows, and each row of each table.
pub fn written_is_read()
    ensures sizes { (sizes : Sizes) (rows : Table → List (List ℕ)) (rest : List ℕ) → Fit sizes rows →
        sizes_of (table_bytes sizes rows ++ rest) ≡ sizes }
    ensures end { (sizes : Sizes) (rows : Table → List (List ℕ)) (rest : List ℕ) → Fit sizes rows →
        rows_end (table_bytes sizes rows ++ rest) ≡ length (table_bytes sizes rows) }
    ensures rows { (sizes : Sizes) (rows : Table → List (List ℕ)) (rest : List ℕ) (table : Table) → Fit sizes rows →
        raw (table_bytes sizes rows ++ rest) table ≡ rows table }
{}

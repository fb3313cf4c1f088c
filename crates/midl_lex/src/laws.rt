//! What holds of the definitions alone.

ghost use Rattle.std.specs.Prelude.{◌≡◌, List, ℕ, Some, None};
ghost use Rattle.midl_lex.specs.declared.fault.Fault.{Fault};
ghost use Rattle.midl_lex.specs.Pieces.{Piece};
ghost use Rattle.midl_lex.specs.Tokens.{Lexes};
ghost use Rattle.midl_lex.specs.Faults.{IsFault, FirstFault, entry};
ghost use Rattle.midl_lex.specs.Entries.{Lexical};
ghost use Rattle.ranked.specs.First.{IsFirst};
ghost use Rattle.midl_lex.specs.Laws.{IsOnly};

/// Bytes without a lexical fault have exactly one list of tokens, and bytes with one have none, and one first fault.
pub fn tokens_or_fault(_bytes: &[u8])
    // Without a fault there is one list of tokens.
    ensures one { ((offset : ℕ) (fault : Fault) → ¬ (IsFault _bytes.now offset fault)) → (pieces : List Piece) × IsOnly _bytes.now pieces }
    // With a fault there is none.
    ensures none { (offset : ℕ) (fault : Fault) (pieces : List Piece) → IsFault _bytes.now offset fault → ¬ (Lexes _bytes.now pieces) }
    // With a fault there is a first one.
    ensures first { (offset : ℕ) (fault : Fault) → IsFault _bytes.now offset fault → (place : ℕ) × (first : Fault) × FirstFault _bytes.now place first }
    // There is one first fault.
    ensures same { (a b : ℕ) (f g : Fault) → FirstFault _bytes.now a f → FirstFault _bytes.now b g → (a ≡ b) × (f ≡ g) }
{}

/// In the order of refusals the first fault is the first entry of the lexical phase, and where tokens are there is none.
pub fn fault_is_first_entry(_file: u32, _bytes: &[u8])
    ensures fault { (offset : ℕ) (fault : Fault) → FirstFault _bytes.now offset fault → IsFirst (Lexical _file _bytes.now) (Some (entry _file offset fault)) }
    ensures none { (pieces : List Piece) → Lexes _bytes.now pieces → IsFirst (Lexical _file _bytes.now) None }
{}

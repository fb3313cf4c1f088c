//! What the rows of metadata are made of, and what a reader finds who follows their cells (ECMA-335 II.22, II.24.2): definitions alone.
#![tactic(auto)]

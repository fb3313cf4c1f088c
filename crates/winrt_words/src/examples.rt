//! Examples of words, by the definitions alone.

ghost use Rattle.winrt_words.specs.Examples.{Examples};

/// What the prover computes of the examples: which words are taken and what they name, and which aren't.
pub fn examples_are_so()
    ensures { Examples }
{}

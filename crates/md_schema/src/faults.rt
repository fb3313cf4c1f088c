//! What can be wrong with an image.

/// A fault of an image, and where it is: an offset in the bytes that were read. It is 0 for an index past its table or heap.
#[derive(Clone, Copy, Debug, PartialEq, Eq)]
pub struct ImageFault {
    pub kind: ImageKind,
    pub offset: u64,
}

/// What is wrong.
#[derive(Clone, Copy, Debug, PartialEq, Eq)]
pub enum ImageKind {
    /// The bytes are no portable executable: a signature, magic or size fails, or they end in a header (ECMA-335 II.25.2).
    NotPe,
    /// There is no CLI header (II.25.3.3).
    NoCli,
    /// The metadata root fails, or the bytes end in it (II.24.2.1).
    NoRoot,
    /// No section holds a range of addresses (II.25.3).
    BadRva,
    /// The metadata doesn't hold a stream (II.24.2.2).
    BadStream,
    /// The version text of the root isn't that of the Windows Runtime.
    NotWindowsRuntime,
    /// The tables are in the uncompressed stream `#-`.
    Uncompressed,
    /// A stream that is needed isn't there.
    MissingStream,
    /// A bit of Valid is that of no table (II.24.2.6).
    UnknownTable,
    /// The rows end past their stream (II.24.2.6).
    ShortTable,
    /// An index is past its table.
    RowRange,
    /// The tag of a coded index is that of no table (II.24.2.6).
    BadTag,
    /// A list of rows runs backwards or past the end of its table.
    ListOrder,
    /// An index is past its heap (II.24.2.3 to II.24.2.5).
    HeapRange,
    /// A text in `#Strings` has no end, or isn't UTF-8 (II.24.2.3).
    HeapText,
    /// A blob is past its heap (II.24.2.4).
    BadLength,
    /// A compressed integer begins with three set bits (II.23.2).
    BadLead,
    /// A compressed integer is cut (II.23.2).
    Short,
    /// A signature's blob ends early (II.23.2).
    SigShort,
    /// An element isn't allowed at its place in a signature (II.23.1.16).
    SigElement,
    /// A signature's blob has bytes behind the signature.
    SigTail,
    /// A signature nests too deep.
    SigDeep,
    /// A signature has a floating-point type (II.23.1.16).
    FloatType,
    /// A type has a generic parameter (II.22.20).
    GenericDefinition,
    /// A type stands within another (II.22.32).
    Nested,
    /// An interface or a delegate has no Guid attribute.
    MissingAttribute,
    /// The rows or the values of attributes state no declaration.
    BadShape,
    /// A limit on sizes is passed.
    PastLimit,
}

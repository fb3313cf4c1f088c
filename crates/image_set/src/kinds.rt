//! The words of kinds of faults.

ghost use Rattle.std.specs.Prelude.{◌≡◌};
ghost use Rattle.image_set.specs.Lines.{kind_name};

use md_schema::ImageKind;

/// The word of the kind.
pub(crate) fn kind_name(kind: ImageKind) -> &'static str
    ensures { result.now ≡ kind_name kind }
{
    match kind {
        ImageKind::NotPe => "NotPe",
        ImageKind::NoCli => "NoCli",
        ImageKind::NoRoot => "NoRoot",
        ImageKind::BadRva => "BadRva",
        ImageKind::BadStream => "BadStream",
        ImageKind::NotWindowsRuntime => "NotWindowsRuntime",
        ImageKind::Uncompressed => "Uncompressed",
        ImageKind::MissingStream => "MissingStream",
        ImageKind::UnknownTable => "UnknownTable",
        ImageKind::ShortTable => "ShortTable",
        ImageKind::RowRange => "RowRange",
        ImageKind::BadTag => "BadTag",
        ImageKind::ListOrder => "ListOrder",
        ImageKind::HeapRange => "HeapRange",
        ImageKind::HeapText => "HeapText",
        ImageKind::BadLength => "BadLength",
        ImageKind::BadLead => "BadLead",
        ImageKind::Short => "Short",
        ImageKind::SigShort => "SigShort",
        ImageKind::SigElement => "SigElement",
        ImageKind::SigTail => "SigTail",
        ImageKind::SigDeep => "SigDeep",
        ImageKind::FloatType => "FloatType",
        ImageKind::GenericDefinition => "GenericDefinition",
        ImageKind::Nested => "Nested",
        ImageKind::MissingAttribute => "MissingAttribute",
        ImageKind::BadShape => "BadShape",
        ImageKind::PastLimit => "PastLimit",
    }
}

//! Numbers have their widths: what the types of fields say, said of a whole set.

ghost use Rattle.std.specs.List.{All};
ghost use Rattle.writable_sets.specs.Stated.{HasWidths};

use wr_base::Declaration;

fn has_widths(declaration: &Declaration)
    ensures { HasWidths declaration.now }
{
    match declaration {
        Declaration::Enum { version, .. } => {
            let _version = *version;
        }
        Declaration::Struct { version, .. } => {
            let _version = *version;
        }
        Declaration::Delegate { version, id, .. } => {
            let _version = *version;
            let _id = *id;
        }
        Declaration::Interface { version, id, .. } => {
            let _version = *version;
            let _id = *id;
        }
        Declaration::Class { version, .. } => {
            let _version = *version;
        }
    }
}

/// Reads the numbers of each declaration, which tells their widths to whoever calls it.
pub fn have_widths(types: &[Declaration])
    ensures { All HasWidths types.now }
{
    for declaration in types {
        has_widths(declaration);
    }
}

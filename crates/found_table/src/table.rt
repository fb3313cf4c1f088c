//! The found types, and what a full name finds among them.

ghost use Rattle.std.specs.Prelude.{◌≡◌, ◌<◌, Some, option_map, slice_get};
ghost use Rattle.found_table.specs.Views.{found_view};
ghost use Rattle.found_table.specs.Table.{builtin, is_found, table};

use crate::{Found, FoundMember, FoundPart, FoundUse};
use wr_base::Base;

static TOKEN_FIELDS: [FoundPart; 1] = [FoundPart {
    name: "Value",
    ty: FoundUse::Plain(Base::I64),
}];

static TIME_FIELDS: [FoundPart; 1] = [FoundPart {
    name: "UniversalTime",
    ty: FoundUse::Plain(Base::I64),
}];

static SPAN_FIELDS: [FoundPart; 1] = [FoundPart {
    name: "Duration",
    ty: FoundUse::Plain(Base::I64),
}];

static CLOSABLE: [FoundMember; 1] = [FoundMember::Method {
    name: "Close",
    result: None,
}];

static STRINGABLE: [FoundMember; 1] = [FoundMember::Method {
    name: "ToString",
    result: Some(FoundUse::Plain(Base::Text)),
}];

static REFERENCE: [FoundMember; 1] = [FoundMember::Property {
    name: "Value",
    ty: FoundUse::Argument(0),
}];

static HANDLER: [FoundPart; 2] = [
    FoundPart {
        name: "sender",
        ty: FoundUse::Plain(Base::Object),
    },
    FoundPart {
        name: "args",
        ty: FoundUse::Argument(0),
    },
];

static TYPED_HANDLER: [FoundPart; 2] = [
    FoundPart {
        name: "sender",
        ty: FoundUse::Argument(0),
    },
    FoundPart {
        name: "args",
        ty: FoundUse::Argument(1),
    },
];

/// How many found types there are.
const ROWS: usize = 8;

// The found type at a place of the table.
fn row_at(place: usize) -> Found
    requires { place < 8 }
    ensures { slice_get table place ≡ Some (found_view result) }
{
    match place {
        0 => Found::Struct {
            name: "Windows.Foundation.EventRegistrationToken",
            fields: &TOKEN_FIELDS,
        },
        1 => Found::Struct {
            name: "Windows.Foundation.DateTime",
            fields: &TIME_FIELDS,
        },
        2 => Found::Struct {
            name: "Windows.Foundation.TimeSpan",
            fields: &SPAN_FIELDS,
        },
        3 => Found::Interface {
            name: "Windows.Foundation.IClosable",
            arguments: 0,
            id: 0x30d5a829_7fa4_4026_83bb_d75bae4ea99e,
            members: &CLOSABLE,
        },
        4 => Found::Interface {
            name: "Windows.Foundation.IStringable",
            arguments: 0,
            id: 0x96369f54_8eb6_48f0_abce_c1b211e627c3,
            members: &STRINGABLE,
        },
        5 => Found::Interface {
            name: "Windows.Foundation.IReference",
            arguments: 1,
            id: 0x61c17706_2d65_11e0_9ae8_d48564015472,
            members: &REFERENCE,
        },
        6 => Found::Delegate {
            name: "Windows.Foundation.EventHandler",
            arguments: 1,
            id: 0x9de1c535_6ae1_11e0_84e1_18a905bcc53f,
            params: &HANDLER,
        },
        _ => Found::Delegate {
            name: "Windows.Foundation.TypedEventHandler",
            arguments: 2,
            id: 0x9de1c534_6ae1_11e0_84e1_18a905bcc53f,
            params: &TYPED_HANDLER,
        },
    }
}

/// The found type of this full name. A template goes by its name without arguments.
pub fn builtin(name: &str) -> Option<Found>
    ensures { option_map found_view result ≡ builtin name.now }
{
    for place in 0..ROWS {
        let row = row_at(place);
        if name == row.name() {
            return Some(row);
        }
    }
    None
}

/// Whether a found type has this full name, but for ASCII case.
pub fn is_found(name: &str) -> bool
    ensures { result ≡ is_found name.now }
{
    for place in 0..ROWS {
        if name.eq_ignore_ascii_case(row_at(place).name()) {
            return true;
        }
    }
    false
}

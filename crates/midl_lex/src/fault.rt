ghost use Rattle.std.specs.Prelude.{◌≡◌};
ghost use Rattle.midl_lex.specs.Faults.{code_of, entry};

use std::alloc::Global;
use wr_base::{Code, Name, Place, Refusal};

/// What may be wrong with the bytes of a file.
#[derive(Clone, Copy, Debug, PartialEq, Eq)]
pub enum Fault {
    NotUtf8,
    BadChar,
    OpenComment,
    OpenText,
    WideNumber,
    LongName,
}

fn code_of(fault: Fault) -> Code
    ensures { result ≡ code_of fault }
{
    match fault {
        Fault::NotUtf8 => Code::NotUtf8,
        Fault::BadChar => Code::BadChar,
        Fault::OpenComment => Code::OpenComment,
        Fault::OpenText => Code::OpenText,
        Fault::WideNumber => Code::WideNumber,
        Fault::LongName => Code::LongName,
    }
}

/// The refusal of a fault, which has no word.
pub(crate) fn refusal(alloc: Global, file: u32, offset: u32, fault: Fault) -> Refusal
    ensures { result ≡ entry file offset fault }
{
    Refusal {
        place: Place { file, offset },
        code: code_of(fault),
        word: Name::empty(alloc),
    }
}

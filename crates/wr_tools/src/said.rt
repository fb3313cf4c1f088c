//! What a call says on err: a name, and a text behind it that tells why.

ghost use Rattle.std.specs.Prelude.{◌≡◌};
ghost use Rattle.wr_tools.specs.Said.{status_said, text_said};

/// Why a call doesn't do what its words ask.
#[derive(Clone, Copy, Debug)]
pub(crate) enum Said {
    /// Content is refused; the name is the line of the refusal.
    Refused,
    /// The words are those of no command.
    Unmatched,
    /// The file is the 257th.
    TooMany,
    /// The file isn't there.
    Missing,
    /// The file is too long.
    TooLong,
    /// Reading the file failed.
    ReadFault,
    /// Writing the file failed.
    WriteFault,
}

impl Said {
    /// The status that the call answers.
    pub(crate) fn status(self) -> u8
        ensures { result ≡ status_said self }
    {
        match self {
            Said::Refused => 1,
            Said::Unmatched => 2,
            Said::TooMany => 3,
            Said::Missing => 3,
            Said::TooLong => 3,
            Said::ReadFault => 4,
            Said::WriteFault => 5,
        }
    }

    /// The text behind the name.
    pub(crate) fn text(self) -> &'static str
        ensures { result.now ≡ text_said self }
    {
        match self {
            Said::Refused => "",
            Said::Unmatched => "winrt: the words do not match\n",
            Said::TooMany => ": TooMany\n",
            Said::Missing => ": Missing\n",
            Said::TooLong => ": TooLong\n",
            Said::ReadFault => ": ReadFault\n",
            Said::WriteFault => ": WriteFault\n",
        }
    }
}

// The faults of a dump.

// What is wrong.
#[derive(Clone, Copy)]
pub(crate) enum Wrong {
    TokenTooLong,
    EndOfInput,
    UnknownCommand,
    OutOfPlace,
    BadTimescale,
    BadScope,
    BadVariable,
    CodeDiffers,
    NoScope,
    TooDeep,
    TooMany,
    BadTime,
    TimeBack,
    BadValue,
    UnknownCode,
    TooWide,
    RealTooLong,
    TimeInSection,
    TimeTooLarge,
    ReadFailed,
}

impl Wrong {
    pub(crate) fn text(self) -> &'static str {
        match self {
            Wrong::TokenTooLong => "token too long",
            Wrong::EndOfInput => "unexpected end of input",
            Wrong::UnknownCommand => "unknown command",
            Wrong::OutOfPlace => "command out of place",
            Wrong::BadTimescale => "bad timescale",
            Wrong::BadScope => "bad scope",
            Wrong::BadVariable => "bad variable",
            Wrong::CodeDiffers => "code declared with another size or kind",
            Wrong::NoScope => "upscope without scope",
            Wrong::TooDeep => "scopes too deep",
            Wrong::TooMany => "too many declarations",
            Wrong::BadTime => "bad time",
            Wrong::TimeBack => "time goes back",
            Wrong::BadValue => "bad value",
            Wrong::UnknownCode => "unknown code",
            Wrong::TooWide => "value too wide",
            Wrong::RealTooLong => "real text too long",
            Wrong::TimeInSection => "time inside a section",
            Wrong::TimeTooLarge => "time too large",
            Wrong::ReadFailed => "read failed",
        }
    }
}

// What is wrong, and in which line.
#[derive(Clone, Copy)]
pub(crate) struct Fault {
    pub(crate) wrong: Wrong,
    pub(crate) line: u64,
}

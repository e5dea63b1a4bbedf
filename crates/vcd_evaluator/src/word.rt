// The keywords of a dump.

// A section of the body, by its keyword.
#[derive(Clone, Copy)]
pub(crate) enum Section {
    All,
    Off,
    On,
    Vars,
}

impl Section {
    pub(crate) fn keyword(self) -> &'static [u8] {
        match self {
            Section::All => b"$dumpall",
            Section::Off => b"$dumpoff",
            Section::On => b"$dumpon",
            Section::Vars => b"$dumpvars",
        }
    }
}

#[derive(Clone, Copy)]
pub(crate) enum Keyword {
    Comment,
    Date,
    EndDefinitions,
    Scope,
    Timescale,
    Upscope,
    Var,
    Version,
    Dump(Section),
    End,
}

// The keywords and their texts.
static KEYWORDS: [(&[u8], Keyword); 13] = [
    (b"$comment", Keyword::Comment),
    (b"$date", Keyword::Date),
    (b"$enddefinitions", Keyword::EndDefinitions),
    (b"$scope", Keyword::Scope),
    (b"$timescale", Keyword::Timescale),
    (b"$upscope", Keyword::Upscope),
    (b"$var", Keyword::Var),
    (b"$version", Keyword::Version),
    (b"$dumpall", Keyword::Dump(Section::All)),
    (b"$dumpoff", Keyword::Dump(Section::Off)),
    (b"$dumpon", Keyword::Dump(Section::On)),
    (b"$dumpvars", Keyword::Dump(Section::Vars)),
    (b"$end", Keyword::End),
];

// Returns the keyword that the whole token is.
pub(crate) fn keyword_of(text: &[u8]) -> Option<Keyword> {
    for (spelled, keyword) in &KEYWORDS {
        if text == *spelled {
            return Some(*keyword);
        }
    }
    None
}

// What a token that is no keyword begins with.
#[derive(Clone, Copy)]
pub(crate) enum Lead {
    Mark,
    Scalar,
    Vector,
    Real,
    Other,
}

pub(crate) fn lead_of(first: u8) -> Lead {
    match first {
        b'#' => Lead::Mark,
        b'0' | b'1' | b'x' | b'X' | b'z' | b'Z' => Lead::Scalar,
        b'b' | b'B' => Lead::Vector,
        b'r' | b'R' => Lead::Real,
        _ => Lead::Other,
    }
}

// Returns whether a byte is a digit of a value.
pub(crate) fn is_digit(byte: u8) -> bool {
    matches!(lead_of(byte), Lead::Scalar)
}

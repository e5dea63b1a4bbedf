// The keywords of a dump.
ghost use Rattle.std.specs.Prelude.{◌≡◌, false, bytes_eq, codes, option_map};
ghost use Rattle.vcd_view.specs.Names.{is_end as ends, keyword_of as keyword_is, model_keyword};

/// A keyword (clause 18, keyword commands).
#[derive(Clone, Copy, PartialEq, Eq, Debug)]
pub enum Keyword {
    Comment,
    Date,
    EndDefinitions,
    Scope,
    Timescale,
    Upscope,
    Var,
    Version,
    DumpAll,
    DumpOff,
    DumpOn,
    DumpVars,
    End,
}

impl Keyword {
    /// Returns the keyword that has exactly the bytes of the token, such as `$var`; `None` if it is
    /// no keyword.
    // Most phrases of a header begin with `$var`: with all keywords in one function that is called,
    // and those of scopes later in it, the header of 184,002 codes takes 5 % more.
    #[inline(always)]
    pub fn of(token: &[u8]) -> Option<Keyword>
        ensures { option_map model_keyword result ≡ keyword_is token.now }
    {
        if is_var(token) {
            return Some(Keyword::Var);
        }
        rarer_keyword_of(token)
    }
}

/// Returns whether the token has exactly the bytes of `word`.
#[inline(always)]
fn is(token: &[u8], word: &[u8]) -> bool
    ensures { result ≡ bytes_eq word.now token.now }
{
    word == token
}

/// Returns whether the token is `$end`.
#[inline(always)]
pub fn is_end(token: &[u8]) -> bool
    ensures { result ≡ ends token.now }
{
    matches!(token, [b'$', b'e', b'n', b'd'])
}

/// Returns whether the token is `$var`.
#[inline(always)]
fn is_var(token: &[u8]) -> bool
    ensures { result ≡ bytes_eq (codes "$var") token.now }
{
    matches!(token, [b'$', b'v', b'a', b'r'])
}

/// Returns the keyword that has exactly the bytes of the token; `None` if it is no keyword. The
/// token must not be `$var`.
fn rarer_keyword_of(token: &[u8]) -> Option<Keyword>
    requires { bytes_eq (codes "$var") token.now ≡ false }
    ensures { option_map model_keyword result ≡ keyword_is token.now }
{
    if is(token, b"$scope") {
        Some(Keyword::Scope)
    } else if is(token, b"$upscope") {
        Some(Keyword::Upscope)
    } else if is(token, b"$comment") {
        Some(Keyword::Comment)
    } else if is(token, b"$date") {
        Some(Keyword::Date)
    } else if is(token, b"$enddefinitions") {
        Some(Keyword::EndDefinitions)
    } else if is(token, b"$timescale") {
        Some(Keyword::Timescale)
    } else if is(token, b"$version") {
        Some(Keyword::Version)
    } else if is(token, b"$dumpall") {
        Some(Keyword::DumpAll)
    } else if is(token, b"$dumpoff") {
        Some(Keyword::DumpOff)
    } else if is(token, b"$dumpon") {
        Some(Keyword::DumpOn)
    } else if is(token, b"$dumpvars") {
        Some(Keyword::DumpVars)
    } else if is(token, b"$end") {
        Some(Keyword::End)
    } else {
        None
    }
}

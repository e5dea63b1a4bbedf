// Short codes as keys.
ghost use Rattle.std.specs.Prelude.{◌≡◌, ◌+◌, ◌*◌, ◌^◌, ◌≤◌, ◌<◌, length};
ghost use Rattle.vcd_view.specs.Keys.{key_in, packed};

// How many bytes fit into a key with a blank after them.
const MAX_BYTES: usize = 7;

// What closes a key.
const BLANK: u64 = b' ' as u64;

/// Returns a key for a code of at most 7 bytes, which no other code has, and 0 for a longer code.
/// Its lowest byte is the first byte of the code.
// One to four bytes are read without a loop. To compare bytes instead is a call and two reads far
// apart: with the key `check` of scalars takes 17 % less.
#[inline(always)]
pub fn key_of(code: &[u8]) -> u64
    ensures { result ≡ key_in code.now }
{
    match code {
        [first] => prepended(BLANK, *first),
        [first, second] => prepended(prepended(BLANK, *second), *first),
        [first, second, third] => prepended(prepended(prepended(BLANK, *third), *second), *first),
        [first, second, third, fourth] => prepended(
            prepended(prepended(prepended(BLANK, *fourth), *third), *second),
            *first,
        ),
        _ if code.len() <= MAX_BYTES => packed_of(code),
        _ => 0,
    }
}

/// Returns the key of the code that has `byte` first and then the bytes of the code with the key
/// `key`, at most 6.
#[inline(always)]
fn prepended(key: u64, byte: u8) -> u64
    requires { key < 2 ^ 56 }
    ensures { result ≡ key * 256 + byte }
{
    key * 256 + u64::from(byte)
}

/// Returns the bytes of a code, at most 7, and a blank after them, as a number: the first byte is
/// the lowest.
fn packed_of(code: &[u8]) -> u64
    requires { length code.now ≤ 7 }
    ensures { result ≡ packed code.now }
{
    let mut key = BLANK;
    let mut position = code.len();
    while position > 0 {
        position -= 1;
        key = key * 256 + u64::from(code[position]);
    }
    key
}

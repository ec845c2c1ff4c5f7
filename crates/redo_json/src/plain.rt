//! Bytes that a string of JSON has as they are.
ghost use Rattle.std.specs.Prelude.{◌≡◌, ◌≤◌, true, length, take};
ghost use Rattle.std.specs.List.{list_all};
ghost use Rattle.json.specs.Run.{is_plain};
ghost use Rattle.redo_json.specs.Private.Writing.{ArePlain, is_plain_or_feed, is_verbatim_byte, is_verbatim_or_feed, special_bit_if};

// The number of bytes that are tested at once.
const STRIDE: usize = 32;

// The same for short strings.
const SHORT_STRIDE: usize = 16;

// The same for lines that are stored together.
const LINES_STRIDE: usize = 64;

/// Returns a number of bytes at the start that are written as they are: all of them up to the first that isn't.
pub fn plain_len(bytes: &[u8]) -> usize
    ensures { ArePlain bytes.now result }
{
    let len = plain_strides_len(bytes);
    if bytes.len() - len < STRIDE && ends_with_plain_stride(bytes, len) {
        return bytes.len();
    }
    len + plain_bytes_len(&bytes[len..])
}

// Returns true only if all bytes are plain, when the first `len` ones are: the stride that ends the bytes has all others, and is plain.
fn ends_with_plain_stride(bytes: &[u8], len: usize) -> bool
    ensures { result ≡ true → ArePlain bytes.now len → ArePlain bytes.now (length bytes.now) }
{
    if bytes.len() < STRIDE {
        return false;
    }
    let start = bytes.len() - STRIDE;
    if start > len {
        return false;
    }
    are_plain(&bytes[start..])
}

// Returns the number of bytes in the strides at the start that consist of plain bytes.
fn plain_strides_len(bytes: &[u8]) -> usize
    ensures { ArePlain bytes.now result }
{
    let mut len = 0;
    while bytes.len() - len >= STRIDE {
        if !are_plain(&bytes[len..len + STRIDE]) {
            return len;
        }
        len += STRIDE;
    }
    len
}

// Returns the number of bytes at the start that are plain, byte by byte.
fn plain_bytes_len(bytes: &[u8]) -> usize
    ensures { ArePlain bytes.now result }
{
    for (at, byte) in bytes.iter().enumerate() {
        if !is_plain_byte(*byte) {
            return at;
        }
    }
    bytes.len()
}

// Returns whether all bytes are plain. The loop has no branch, so the compiler tests several bytes at once.
fn are_plain(bytes: &[u8]) -> bool
    ensures { result ≡ list_all is_plain bytes.now }
{
    let mut special = 0;
    for byte in bytes {
        special = special | special_bit(*byte);
    }
    special == 0
}

// Returns 0 for a plain byte, and 1 for any other.
fn special_bit(byte: u8) -> u8
    ensures { result ≡ special_bit_if (is_plain byte) }
{
    if is_plain_byte(byte) { 0 } else { 1 }
}

fn is_plain_byte(byte: u8) -> bool
    ensures { result ≡ is_plain byte }
{
    !(byte == b'"' || byte == b'\\' || byte < 32)
}

/// Returns true only if a string of JSON has all bytes as they are, apart from line feeds.
pub fn are_plain_lines(bytes: &[u8]) -> bool
    ensures { result ≡ true → list_all is_plain_or_feed bytes.now ≡ true }
{
    let mut len = 0;
    while bytes.len() - len >= LINES_STRIDE {
        if !are_plain_or_feeds(&bytes[len..len + LINES_STRIDE]) {
            return false;
        }
        len += LINES_STRIDE;
    }
    are_plain_or_feeds(&bytes[len..])
}

// Returns whether all bytes are plain or line feeds. The loop has no branch.
#[inline(always)]
fn are_plain_or_feeds(bytes: &[u8]) -> bool
    ensures { result ≡ list_all is_plain_or_feed bytes.now }
{
    let mut special = 0;
    for byte in bytes {
        special = special | feed_bit(*byte);
    }
    special == 0
}

// Returns 0 for a plain byte and for a line feed, and 1 for any other byte.
#[inline(always)]
fn feed_bit(byte: u8) -> u8
    ensures { result ≡ special_bit_if (is_plain_or_feed byte) }
{
    if is_plain_byte(byte) || byte == b'\n' {
        0
    } else {
        1
    }
}

/// Returns true only if all bytes are ASCII that a string of JSON has as they are, apart from line feeds.
pub fn are_verbatim_lines(bytes: &[u8]) -> bool
    ensures { result ≡ true → list_all is_verbatim_or_feed bytes.now ≡ true }
{
    let mut len = 0;
    while bytes.len() - len >= LINES_STRIDE {
        if !are_verbatim_or_feeds(&bytes[len..len + LINES_STRIDE]) {
            return false;
        }
        len += LINES_STRIDE;
    }
    are_verbatim_or_feeds(&bytes[len..])
}

// Returns whether all bytes are line feeds, or ASCII that a string of JSON has as it is. The loop has no branch.
#[inline(always)]
fn are_verbatim_or_feeds(bytes: &[u8]) -> bool
    ensures { result ≡ list_all is_verbatim_or_feed bytes.now }
{
    let mut special = 0;
    for byte in bytes {
        special = special | verbatim_or_feed_bit(*byte);
    }
    special == 0
}

// Returns 0 for a line feed and for an ASCII byte that a string of JSON has as it is, and 1 for any other.
#[inline(always)]
fn verbatim_or_feed_bit(byte: u8) -> u8
    ensures { result ≡ special_bit_if (is_verbatim_or_feed byte) }
{
    if is_ascii_plain(byte) || byte == b'\n' {
        0
    } else {
        1
    }
}

/// Returns true only if all bytes are ASCII that a string of JSON has as they are.
pub fn is_verbatim(bytes: &[u8]) -> bool
    ensures { result ≡ true → list_all is_verbatim_byte bytes.now ≡ true }
{
    if bytes.len() < SHORT_STRIDE {
        return are_verbatim_bytes(bytes);
    }
    let mut len = 0;
    while bytes.len() - len >= SHORT_STRIDE {
        if !are_verbatim(&bytes[len..len + SHORT_STRIDE]) {
            return false;
        }
        len += SHORT_STRIDE;
    }
    are_verbatim(&bytes[bytes.len() - SHORT_STRIDE..])
}

// Returns whether all bytes are ASCII that a string of JSON has as they are, byte by byte.
fn are_verbatim_bytes(bytes: &[u8]) -> bool
    ensures { result ≡ true → list_all is_verbatim_byte bytes.now ≡ true }
{
    for byte in bytes {
        if !is_ascii_plain(*byte) {
            return false;
        }
    }
    true
}

// Returns whether all bytes are ASCII that a string of JSON has as they are. The loop has no branch.
#[inline(always)]
fn are_verbatim(bytes: &[u8]) -> bool
    ensures { result ≡ list_all is_verbatim_byte bytes.now }
{
    let mut special = 0;
    for byte in bytes {
        special = special | verbatim_bit(*byte);
    }
    special == 0
}

// Returns 0 for an ASCII byte that a string of JSON has as it is, and 1 for any other.
#[inline(always)]
fn verbatim_bit(byte: u8) -> u8
    ensures { result ≡ special_bit_if (is_verbatim_byte byte) }
{
    if is_ascii_plain(byte) { 0 } else { 1 }
}

#[inline(always)]
fn is_ascii_plain(byte: u8) -> bool
    ensures { result ≡ is_verbatim_byte byte }
{
    is_plain_byte(byte) && byte < 128
}

//! The styles that compilers set.
ghost use Rattle.std.specs.Prelude.{◌≡◌, ◌≤◌, ◌<◌, ◌+◌, ◌-◌, ◌∷◌, ◌++◌, [], ◌&&◌, ℕ, List, true, nat_le, length, drop, slice_index};
ghost use Rattle.redo_html.specs.Passage.{hue_number, is_same_style, has_element};
ghost use Rattle.redo_html.specs.Style.{digit_hue, attribute_added, setting_after, restyled};
ghost use Rattle.redo_html.specs.Symbols.{sequence_numbers, numbers_from};
ghost use Rattle.redo_html.specs.Private.Writing.{IsBeforeErase, IsSequence, ReadsPair, ReadsParameter, ReadsSequence, SkipsSequences};

use crate::symbol::sequence_size;

/// A hue. `Plain` is the colour of the page's text.
#[derive(Clone, Copy, Debug, PartialEq, Eq)]
pub enum Hue {
    Plain,
    Red,
    Green,
    Yellow,
    Blue,
    Magenta,
    Cyan,
}

/// How text looks.
#[derive(Clone, Copy, Debug, PartialEq, Eq)]
pub struct Style {
    pub bold: bool,
    pub hue: Hue,
}

impl Style {
    /// The style of a page's text.
    pub const PLAIN: Style = Style {
        bold: false,
        hue: Hue::Plain,
    };
}

/// A style while the numbers of a sequence are read, and how many of them are still to be ignored.
#[derive(Clone, Copy)]
pub struct Setting {
    pub style: Style,
    pub ahead: u8,
}

/// Returns whether two styles are the same.
pub fn is_same(one: Style, other: Style) -> bool
    ensures { result ≡ is_same_style one other }
{
    one.bold == other.bold && number(one.hue) == number(other.hue)
}

/// Returns whether a style has an element of its own.
pub fn has_own_element(style: Style) -> bool
    ensures { result ≡ has_element style }
{
    style.bold || number(style.hue) != 0
}

fn number(hue: Hue) -> u8
    ensures { result ≡ hue_number hue }
{
    match hue {
        Hue::Plain => 0,
        Hue::Red => 1,
        Hue::Green => 2,
        Hue::Yellow => 3,
        Hue::Blue => 4,
        Hue::Magenta => 5,
        Hue::Cyan => 6,
    }
}

/// Returns the style after the sequences at an index of a log's text, and the index after them.
#[inline(always)]
pub fn after_sequences(style: Style, bytes: &[u8], from: usize) -> (Style, usize)
    requires { from ≤ length bytes.now }
    ensures after { from ≤ result.1 }
    ensures all { SkipsSequences style (drop from bytes.now) result.0 (result.1 - from) }
    ensures line { (line more : List ℕ) → drop from bytes.now ≡ line ++ 10 ∷ more
        → SkipsSequences style (line ++ 10 ∷ []) result.0 (result.1 - from) × (result.1 - from ≤ length line) }
{
    let mut current = style;
    let mut at = from;
    while at < bytes.len() && bytes[at] == 27 {
        let (next, len) = read_pair(current, &bytes[at..]);
        if len > 0 {
            current = next;
            at += len;
        } else {
            let mut other = current;
            let other_len = read_sequence(&mut other, &bytes[at..]);
            if other_len == 0 {
                return (current, at);
            }
            current = other;
            at += other_len;
        }
    }
    (current, at)
}

// Returns the style after the two sequences at the start, and the number of their bytes, or 0 unless they are those that GCC writes
// most: `ESC [` and no parameters, `01`, or `01;3` and a digit, then `m`, then `ESC [ K`.
#[inline(always)]
fn read_pair(style: Style, bytes: &[u8]) -> (Style, usize)
    requires { slice_index bytes.now 0 ≡ 27 }
    ensures { 0 < result.1 → ReadsPair style bytes.now result.0 result.1 }
{
    if bytes.len() < 11 || bytes[1] != b'[' {
        return (style, 0);
    }
    if is_before_erase(bytes, 2) {
        return (Style::PLAIN, 6);
    }
    if bytes[2] != b'0' || bytes[3] != b'1' {
        return (style, 0);
    }
    if is_before_erase(bytes, 4) {
        return (
            Style {
                bold: true,
                ..style
            },
            8,
        );
    }
    if bytes[4] == b';' && bytes[5] == b'3' && is_octal(bytes[6]) && is_before_erase(bytes, 7) {
        return (
            Style {
                bold: true,
                hue: hue_of(u32::from(bytes[6] - b'0')),
            },
            11,
        );
    }
    (style, 0)
}

// Returns whether an `m` is at this index, and `ESC [ K` after it. The compiler makes one load of the four bytes.
#[inline(always)]
fn is_before_erase(bytes: &[u8], at: usize) -> bool
    requires { at + 4 ≤ length bytes.now }
    ensures { result ≡ true → IsBeforeErase bytes.now at }
{
    u32::from_le_bytes([bytes[at], bytes[at + 1], bytes[at + 2], bytes[at + 3]])
        == u32::from_le_bytes([b'm', 27, b'[', b'K'])
}

fn is_octal(byte: u8) -> bool
    ensures { result ≡ (nat_le 48 byte && nat_le byte 55) }
{
    b'0' <= byte && byte <= b'7'
}

// Sets the style to the one after the sequence at the start, and returns the number of its bytes, or 0 if there is none. It isn't
// inlined, so that registers are left for the pairs.
#[inline(never)]
fn read_sequence(style: &mut Style, bytes: &[u8]) -> usize
    ensures { ReadsSequence style.old bytes.now style.new result }
{
    let (next, len) = if bytes.len() >= 3 && bytes[0] == 27 && bytes[1] == b'[' {
        read_parameters(*style, bytes)
    } else {
        read_other(*style, bytes)
    };
    *style = next;
    len
}

// Returns the style after the sequence at the start, and the number of its bytes, or 0 if there is none.
fn read_other(style: Style, bytes: &[u8]) -> (Style, usize)
    ensures { ReadsSequence style bytes.now result.0 result.1 }
{
    let len = sequence_size(bytes);
    if len == 0 {
        (style, 0)
    } else {
        (after_sequence(style, bytes, len), len)
    }
}

// Returns the same for bytes that begin with `ESC [`, by one pass over the parameters.
fn read_parameters(style: Style, bytes: &[u8]) -> (Style, usize)
    requires some { 3 ≤ length bytes.now }
    requires escape { slice_index bytes.now 0 ≡ 27 }
    requires bracket { slice_index bytes.now 1 ≡ 91 }
    ensures { ReadsSequence style bytes.now result.0 result.1 }
{
    let mut setting = Setting { style, ahead: 0 };
    let mut value = 0;
    let parameters = &bytes[2..];
    for (at, byte) in parameters.iter().enumerate() {
        if is_digit(*byte) {
            value = after_digit(value, *byte);
        } else if *byte == b';' {
            setting = after_number(setting, value);
            value = 0;
        } else if *byte == b'm' {
            return (after_number(setting, value).style, at + 3);
        } else if *byte == b'K' {
            return (style, at + 3);
        } else {
            return (style, 0);
        }
    }
    (style, 0)
}

fn is_digit(byte: u8) -> bool
    ensures { result ≡ (nat_le 48 byte && nat_le byte 57) }
{
    b'0' <= byte && byte <= b'9'
}

// Returns the value of digits after one more.
fn after_digit(value: u32, byte: u8) -> u32
    requires value { value ≤ 999 }
    requires digit { (nat_le 48 byte && nat_le byte 57) ≡ true }
    ensures bound { result ≤ 999 }
    ensures same { (rest : List ℕ) → numbers_from value (byte ∷ rest) ≡ numbers_from result rest }
{
    (10 * value + u32::from(byte - 48)).min(999)
}

/// Returns the style after the sequence at the start of `bytes`, which has `len` bytes.
pub fn after_sequence(style: Style, bytes: &[u8], len: usize) -> Style
    requires { IsSequence bytes.now len }
    ensures { result ≡ restyled style (sequence_numbers bytes.now) }
{
    if bytes[1] == b'[' && bytes[len - 1] == b'm' {
        let rest = &bytes[2..];
        after_parameters(style, &rest[..len - 3])
    } else {
        style
    }
}

// Returns the style after an SGR sequence with these parameters.
fn after_parameters(style: Style, parameters: &[u8]) -> Style
    ensures { result ≡ restyled style (numbers_from 0 parameters.now) }
{
    let mut setting = Setting { style, ahead: 0 };
    let mut value = 0;
    for byte in parameters {
        (setting, value) = after_byte(setting, value, *byte);
    }
    after_number(setting, value).style
}

// Returns the state after one byte of the parameters: the setting, and the value of the digits so far.
fn after_byte(setting: Setting, value: u32, byte: u8) -> (Setting, u32)
    requires { value ≤ 999 }
    ensures { ReadsParameter setting result.0 value byte result.1 }
{
    if byte == b';' {
        (after_number(setting, value), 0)
    } else {
        (
            setting,
            (10 * value + u32::from(byte.saturating_sub(48))).min(999),
        )
    }
}

#[inline(always)]
fn after_number(setting: Setting, number: u32) -> Setting
    ensures { result ≡ setting_after setting number }
{
    let style = setting.style;
    if setting.ahead == 4 {
        Setting {
            style,
            ahead: if number == 5 { 1 } else { 3 },
        }
    } else if setting.ahead >= 1 {
        Setting {
            style,
            ahead: setting.ahead - 1,
        }
    } else if number == 38 || number == 48 || number == 58 {
        Setting { style, ahead: 4 }
    } else {
        Setting {
            style: with_attribute(style, number),
            ahead: 0,
        }
    }
}

fn with_attribute(style: Style, number: u32) -> Style
    ensures { result ≡ attribute_added style number }
{
    if number == 0 {
        Style::PLAIN
    } else if number == 1 {
        Style {
            bold: true,
            ..style
        }
    } else if number == 22 {
        Style {
            bold: false,
            ..style
        }
    } else if number == 39 {
        Style {
            hue: Hue::Plain,
            ..style
        }
    } else if 30 <= number && number <= 37 {
        Style {
            hue: hue_of(number - 30),
            ..style
        }
    } else if 90 <= number && number <= 97 {
        Style {
            hue: hue_of(number - 90),
            ..style
        }
    } else {
        style
    }
}

fn hue_of(digit: u32) -> Hue
    ensures { result ≡ digit_hue digit }
{
    if digit == 1 {
        Hue::Red
    } else if digit == 2 {
        Hue::Green
    } else if digit == 3 {
        Hue::Yellow
    } else if digit == 4 {
        Hue::Blue
    } else if digit == 5 {
        Hue::Magenta
    } else if digit == 6 {
        Hue::Cyan
    } else {
        Hue::Plain
    }
}

// The class of each of the 256 byte values, listed once. What the classes stand for is in specs/Classes.antt.
ghost use Rattle.std.specs.Prelude.{◌≡◌};
ghost use Rattle.lexer.specs.Bytes.{is_white, is_digit, is_name_byte};
ghost use Rattle.lexer.specs.Classes.{class_of, class_number};

use crate::Sign;
use Class::{Digit, Letter, Other, White};

// What begins with a byte.
#[derive(Clone, Copy, Debug, PartialEq, Eq)]
pub(crate) enum Class {
    White,
    Digit,
    // A letter or `_`.
    Letter,
    // Of the signs that begin with the byte, the longest.
    Sign(Sign),
    // No token.
    Other,
}

// The entry at each byte value.
static CLASSES: [Class; 256] = [
    // 0x00 to 0x0f
    Other,
    Other,
    Other,
    Other,
    Other,
    Other,
    Other,
    Other,
    Other,
    White, // tab
    White, // line feed
    Other,
    Other,
    White, // carriage return
    Other,
    Other,
    // 0x10 to 0x1f
    Other,
    Other,
    Other,
    Other,
    Other,
    Other,
    Other,
    Other,
    Other,
    Other,
    Other,
    Other,
    Other,
    Other,
    Other,
    Other,
    // 0x20 to 0x2f
    White, // space
    Class::Sign(Sign::Bang), // !
    Other,
    Other,
    Other,
    Other,
    Class::Sign(Sign::Ampersand), // &
    Other,
    Class::Sign(Sign::LeftParen), // (
    Class::Sign(Sign::RightParen), // )
    Class::Sign(Sign::Star), // *
    Other,
    Class::Sign(Sign::Comma), // ,
    Class::Sign(Sign::RightArrow), // -
    Other,
    Other,
    // 0x30 to 0x3f
    Digit, // 0
    Digit, // 1
    Digit, // 2
    Digit, // 3
    Digit, // 4
    Digit, // 5
    Digit, // 6
    Digit, // 7
    Digit, // 8
    Digit, // 9
    Class::Sign(Sign::Colon), // :
    Class::Sign(Sign::Semicolon), // ;
    Class::Sign(Sign::LeftArrow), // <
    Class::Sign(Sign::DoubleEquals), // =
    Other,
    Other,
    // 0x40 to 0x4f
    Class::Sign(Sign::At), // @
    Letter, // A
    Letter, // B
    Letter, // C
    Letter, // D
    Letter, // E
    Letter, // F
    Letter, // G
    Letter, // H
    Letter, // I
    Letter, // J
    Letter, // K
    Letter, // L
    Letter, // M
    Letter, // N
    Letter, // O
    // 0x50 to 0x5f
    Letter, // P
    Letter, // Q
    Letter, // R
    Letter, // S
    Letter, // T
    Letter, // U
    Letter, // V
    Letter, // W
    Letter, // X
    Letter, // Y
    Letter, // Z
    Class::Sign(Sign::LeftBracket), // [
    Other,
    Class::Sign(Sign::RightBracket), // ]
    Other,
    Letter, // _
    // 0x60 to 0x6f
    Other,
    Letter, // a
    Letter, // b
    Letter, // c
    Letter, // d
    Letter, // e
    Letter, // f
    Letter, // g
    Letter, // h
    Letter, // i
    Letter, // j
    Letter, // k
    Letter, // l
    Letter, // m
    Letter, // n
    Letter, // o
    // 0x70 to 0x7f
    Letter, // p
    Letter, // q
    Letter, // r
    Letter, // s
    Letter, // t
    Letter, // u
    Letter, // v
    Letter, // w
    Letter, // x
    Letter, // y
    Letter, // z
    Class::Sign(Sign::LeftBrace), // {
    Class::Sign(Sign::DoubleBar), // |
    Class::Sign(Sign::RightBrace), // }
    Other,
    Other,
    // 0x80 to 0x8f
    Other,
    Other,
    Other,
    Other,
    Other,
    Other,
    Other,
    Other,
    Other,
    Other,
    Other,
    Other,
    Other,
    Other,
    Other,
    Other,
    // 0x90 to 0x9f
    Other,
    Other,
    Other,
    Other,
    Other,
    Other,
    Other,
    Other,
    Other,
    Other,
    Other,
    Other,
    Other,
    Other,
    Other,
    Other,
    // 0xa0 to 0xaf
    Other,
    Other,
    Other,
    Other,
    Other,
    Other,
    Other,
    Other,
    Other,
    Other,
    Other,
    Other,
    Other,
    Other,
    Other,
    Other,
    // 0xb0 to 0xbf
    Other,
    Other,
    Other,
    Other,
    Other,
    Other,
    Other,
    Other,
    Other,
    Other,
    Other,
    Other,
    Other,
    Other,
    Other,
    Other,
    // 0xc0 to 0xcf
    Other,
    Other,
    Other,
    Other,
    Other,
    Other,
    Other,
    Other,
    Other,
    Other,
    Other,
    Other,
    Other,
    Other,
    Other,
    Other,
    // 0xd0 to 0xdf
    Other,
    Other,
    Other,
    Other,
    Other,
    Other,
    Other,
    Other,
    Other,
    Other,
    Other,
    Other,
    Other,
    Other,
    Other,
    Other,
    // 0xe0 to 0xef
    Other,
    Other,
    Other,
    Other,
    Other,
    Other,
    Other,
    Other,
    Other,
    Other,
    Other,
    Other,
    Other,
    Other,
    Other,
    Other,
    // 0xf0 to 0xff
    Other,
    Other,
    Other,
    Other,
    Other,
    Other,
    Other,
    Other,
    Other,
    Other,
    Other,
    Other,
    Other,
    Other,
    Other,
    Other,
];

pub(crate) fn class_of(b: u8) -> Class
    ensures { class_number result ≡ class_of b }
{
    CLASSES[b as usize]
}

pub(crate) fn is_white(b: u8) -> bool
    ensures { result ≡ is_white b }
{
    matches!(class_of(b), White)
}

pub(crate) fn is_digit(b: u8) -> bool
    ensures { result ≡ is_digit b }
{
    matches!(class_of(b), Digit)
}

// Whether a name can go on with the byte.
pub(crate) fn is_name_byte(b: u8) -> bool
    ensures { result ≡ is_name_byte b }
{
    matches!(class_of(b), Letter | Digit)
}

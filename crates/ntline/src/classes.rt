// The character classes. A character is its number; BAD, which is no character, is in none of them.
#![tactic(auto, unfolding(utf8::specs::Characters::is_character_lem, crate::specs::Classes::is_white_lem, crate::specs::Classes::is_alpha_lem, crate::specs::Classes::is_alnum_lem, crate::specs::Classes::is_digit_lem, crate::specs::Classes::is_hex_lem, crate::specs::Classes::is_barred, crate::specs::Classes::is_iri_char_lem, crate::specs::Classes::is_base, crate::specs::Classes::is_name_start, crate::specs::Classes::is_name_char_lem, crate::specs::Classes::is_label_start_lem, crate::specs::Classes::is_scheme_char_lem))]

ghost use Rattle.std.specs.Prelude.{◌≡◌};
ghost use Rattle.utf8.specs.Characters.{is_character_lem};
ghost use Rattle.ntline.specs.Classes.{is_white_lem, is_alpha_lem, is_digit_lem, is_alnum_lem, is_hex_lem, is_barred, is_iri_char_lem, is_base, is_name_start, is_name_char_lem, is_label_start_lem, is_scheme_char_lem};

pub fn is_character(c: u32) -> bool
    ensures { result ≡ is_character_lem c }
{
    matches!(c, 0..=0xD7FF | 0xE000..=0x10FFFF)
}

pub fn is_white(c: u32) -> bool
    ensures { result ≡ is_white_lem c }
{
    matches!(c, 0x20 | 0x9)
}

pub fn is_alpha(c: u32) -> bool
    ensures { result ≡ is_alpha_lem c }
{
    matches!(c, 0x61..=0x7A | 0x41..=0x5A)
}

pub fn is_digit(c: u32) -> bool
    ensures { result ≡ is_digit_lem c }
{
    matches!(c, 0x30..=0x39)
}

pub fn is_alnum(c: u32) -> bool
    ensures { result ≡ is_alnum_lem c }
{
    is_alpha(c) || is_digit(c)
}

pub fn is_hex(c: u32) -> bool
    ensures { result ≡ is_hex_lem c }
{
    is_digit(c) || matches!(c, 0x41..=0x46 | 0x61..=0x66)
}

fn is_barred(c: u32) -> bool
    ensures { result ≡ is_barred c }
{
    matches!(
        c,
        0x3C | 0x3E | 0x22 | 0x7B | 0x7D | 0x7C | 0x5E | 0x60 | 0x5C
    )
}

pub fn is_iri_char(c: u32) -> bool
    ensures { result ≡ is_iri_char_lem c }
{
    is_character(c) && 0x21 <= c && !is_barred(c)
}

fn is_base(c: u32) -> bool
    ensures { result ≡ is_base c }
{
    is_alpha(c)
        || matches!(
            c,
            0xC0..=0xD6
                | 0xD8..=0xF6
                | 0xF8..=0x2FF
                | 0x370..=0x37D
                | 0x37F..=0x1FFF
                | 0x200C..=0x200D
                | 0x2070..=0x218F
                | 0x2C00..=0x2FEF
                | 0x3001..=0xD7FF
                | 0xF900..=0xFDCF
                | 0xFDF0..=0xFFFD
                | 0x10000..=0xEFFFF
        )
}

fn is_name_start(c: u32) -> bool
    ensures { result ≡ is_name_start c }
{
    is_base(c) || matches!(c, 0x5F | 0x3A)
}

pub fn is_name_char(c: u32) -> bool
    ensures { result ≡ is_name_char_lem c }
{
    is_name_start(c) || is_digit(c) || matches!(c, 0x2D | 0xB7 | 0x300..=0x36F | 0x203F..=0x2040)
}

pub fn is_label_start(c: u32) -> bool
    ensures { result ≡ is_label_start_lem c }
{
    is_name_start(c) || is_digit(c)
}

pub fn is_scheme_char(c: u32) -> bool
    ensures { result ≡ is_scheme_char_lem c }
{
    is_alnum(c) || matches!(c, 0x2B | 0x2D | 0x2E)
}

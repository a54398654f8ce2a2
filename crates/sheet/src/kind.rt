ghost use Rattle.std.specs.Prelude.{◌≡◌, Some};
ghost use Rattle.sheet.specs.Kinds.{letter_of, word_of};

use std::fmt;

// The five kinds of values.
#[derive(Clone, Copy, PartialEq, Eq, Debug, Drop)]
pub enum Kind {
    Address, // a: a place in the store
    Boolean, // b
    Character, // c: 0 to 255
    Integer, // i: -2,147,483,648 to 2,147,483,647
    Real, // r: a finite 64-bit IEEE 754 number
}

impl Kind {
    // The letter that stands for it in text: `u8::from(kind)` would not say that it is a letter, and a discriminant would read `b'a' as isize`.
    pub fn letter(self) -> u8
        ensures { result ≡ letter_of self }
    {
        match self {
            Kind::Address => b'a',
            Kind::Boolean => b'b',
            Kind::Character => b'c',
            Kind::Integer => b'i',
            Kind::Real => b'r',
        }
    }
}

impl fmt::Display for Kind {
    ghost output = { λ kind. Some (word_of kind) };

    fn fmt<W: fmt::Write>(&self, f: &mut fmt::Formatter<W>) -> fmt::Result {
        f.pad(match self {
            Kind::Address => "address",
            Kind::Boolean => "boolean",
            Kind::Character => "character",
            Kind::Integer => "integer",
            Kind::Real => "real",
        })
    }
}

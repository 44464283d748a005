// A refusal in words: its sentence, and which sheet, attribute or line it is about.
use refusal_place::{RefusalPlace, SheetKind};
use sentences::sentence;
use std::fmt;
use std::fmt::Display;

// The sentence of a refusal's number.
#[derive(Clone, Copy)]
pub(crate) struct Sentence(pub(crate) u8);

impl Display for Sentence {
    fn fmt<W: fmt::Write>(&self, f: &mut fmt::Formatter<W>) -> fmt::Result {
        f.write_str(std::str::from_utf8(sentence(self.0)).unwrap_or(""))
    }
}

// What a sheet is called.
#[derive(Clone, Copy)]
struct SheetName(SheetKind);

impl Display for SheetName {
    fn fmt<W: fmt::Write>(&self, f: &mut fmt::Formatter<W>) -> fmt::Result {
        f.write_str(match self.0 {
            SheetKind::Source => "the sheet of the source layout",
            SheetKind::Target => "the sheet of the target layout",
            SheetKind::Mapping => "the mapping sheet",
        })
    }
}

// The place of a refusal, which ends its sentence.
#[derive(Clone, Copy)]
pub(crate) struct Place(pub(crate) RefusalPlace);

impl Display for Place {
    fn fmt<W: fmt::Write>(&self, f: &mut fmt::Formatter<W>) -> fmt::Result {
        match self.0 {
            RefusalPlace::Input => {
                f.write_str(" In the lengths of the three sheets, or at their end.")
            }
            RefusalPlace::Sheet(sheet) => {
                let sheet = SheetName(sheet);
                write!(f, " In {sheet}.")
            }
            RefusalPlace::Attribute { sheet, place } => {
                let sheet = SheetName(sheet);
                write!(f, " In {sheet}, attribute {place}.")
            }
            RefusalPlace::Target(place) => {
                write!(
                    f,
                    " In the mapping sheet, for the target attribute {place}."
                )
            }
            RefusalPlace::Line(place) => write!(f, " In the mapping sheet, line {place}."),
        }
    }
}

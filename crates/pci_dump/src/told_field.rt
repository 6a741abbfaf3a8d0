//! How far a line is read.
ghost use Rattle.std.specs.Prelude.{◌≡◌};
ghost use Rattle.judge_spec.specs.ToldForm.{digits_of, greatest_digit, separator, behind, is_of_slot};
ghost use Rattle.pci_base.specs.Space.{space_of};
ghost use Rattle.pci_dump.specs.ToldPlaces.{field_of, place_of};

use pci_base::space::Space;

/// The numbers of a line.
#[derive(Clone, Copy, Debug, PartialEq, Eq)]
pub(crate) enum Field {
    Bus,
    Device,
    Function,
    First,
    Last,
}

/// How far a line is read.
#[derive(Clone, Copy, Debug, PartialEq, Eq)]
pub(crate) enum Place {
    /// So many digits of a number.
    Digits(Field, u8),
    /// All digits of a number.
    After(Field),
    /// So many letters of the space.
    InSpace(u8),
    /// So many letters of the mark.
    InMark(u8),
    /// The space behind the mark, and the name so far.
    InName,
}

/// How many digits a number has.
pub(crate) fn digits_of(field: Field, space: Space) -> u8
    ensures { result ≡ digits_of (field_of field) (space_of space) }
{
    match (field, space) {
        (Field::Bus, _) | (Field::Device, _) => 2,
        (Field::Function, _) => 1,
        (Field::First, Space::Io) | (Field::Last, Space::Io) => 8,
        (Field::First, Space::Mem) | (Field::Last, Space::Mem) => 16,
    }
}

/// The greatest digit behind so many: devices end at 1fh, functions at 7.
pub(crate) fn greatest_digit(field: Field, read: u8) -> u8
    ensures { result ≡ greatest_digit (field_of field) read }
{
    match field {
        Field::Device => { if read == 0 { 1 } else { 15 } }
        Field::Function => 7,
        Field::Bus | Field::First | Field::Last => 15,
    }
}

/// The byte behind a number.
pub(crate) fn separator(field: Field) -> u8
    ensures { result ≡ separator (field_of field) }
{
    match field {
        Field::Bus => b':',
        Field::Device => b'.',
        Field::Function => b' ',
        Field::First => b'-',
        Field::Last => b' ',
    }
}

/// What comes behind that byte.
pub(crate) fn behind(field: Field) -> Place
    ensures { place_of result ≡ behind (field_of field) }
{
    match field {
        Field::Bus => Place::Digits(Field::Device, 0),
        Field::Device => Place::Digits(Field::Function, 0),
        Field::Function => Place::InSpace(0),
        Field::First => Place::Digits(Field::Last, 0),
        Field::Last => Place::InMark(0),
    }
}

/// Whether the next byte is one of the first eight of a line.
pub(crate) fn is_of_slot(place: Place) -> bool
    ensures { result ≡ is_of_slot (place_of place) }
{
    match place {
        Place::Digits(field, _) | Place::After(field) => {
            matches!(field, Field::Bus | Field::Device | Field::Function)
        }
        Place::InSpace(_) | Place::InMark(_) | Place::InName => false,
    }
}

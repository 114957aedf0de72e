//! Places of faults as numbers.
ghost use Rattle.std.specs.Prelude.{◌≡◌, ◌%◌};
ghost use Rattle.oxc_sourcemap_c.specs.Words.{no_place, number_told, numbers_of_spot};
ghost use Rattle.oxc_sourcemap_c.specs.Words.{numbers_of_place, told_number, spot_of_numbers};
ghost use Rattle.oxc_sourcemap_c.specs.Words.{place_of_numbers};

use crate::numbers::field_numbers::{field_of, number_of};
use oxc_sourcemap_tokens::{FaultPlace, FaultSpot, SegmentPlace};

/// Where a fault is. The kind is 0 for no place, 1 for a segment of the mappings, 2 for what is not JSON, 3 for a member and 4 for
/// an entry of a list; numbers that a kind does not use are 0. 18446744073709551615 stands for no text and no section.
#[repr(C)]
#[derive(Clone, Copy)]
pub struct PlaceNumbers {
    pub kind: u32,
    pub field: u32,
    pub text: u64,
    pub section: u64,
    pub line: u64,
    pub column: u64,
    pub byte: u64,
    pub entry: u64,
}

/// The number of a text or a section, if it is known.
pub fn number_told(number: Option<usize>) -> u64
    ensures { result ≡ number_told number }
{
    match number {
        Some(number) => number as u64,
        None => 18446744073709551615,
    }
}

/// The number of a text or a section, back.
pub fn told_number(number: u64) -> Option<usize>
    ensures { result ≡ told_number number }
{
    if number == 18446744073709551615 {
        None
    } else {
        Some(number as usize)
    }
}

impl PlaceNumbers {
    /// No place.
    pub fn none() -> PlaceNumbers
        ensures { result ≡ no_place }
    {
        PlaceNumbers {
            kind: 0,
            field: 0,
            text: 0,
            section: 0,
            line: 0,
            column: 0,
            byte: 0,
            entry: 0,
        }
    }

    fn of_segment(place: SegmentPlace) -> PlaceNumbers
        ensures { result ≡ record no_place {
          kind = 1;
          line = place.line;
          column = place.segment;
          byte = place.byte;
        } }
    {
        PlaceNumbers {
            kind: 1,
            line: u64::from(place.line),
            column: place.segment as u64,
            byte: place.byte as u64,
            ..PlaceNumbers::none()
        }
    }

    fn of_spot(spot: FaultSpot) -> PlaceNumbers
        ensures { result ≡ numbers_of_spot spot }
    {
        match spot {
            FaultSpot::Segment(place) => PlaceNumbers::of_segment(place),
            FaultSpot::Reading { line, column, byte } => PlaceNumbers {
                kind: 2,
                line: line as u64,
                column: column as u64,
                byte: byte as u64,
                ..PlaceNumbers::none()
            },
            FaultSpot::Member(field) => PlaceNumbers {
                kind: 3,
                field: number_of(field),
                ..PlaceNumbers::none()
            },
            FaultSpot::Entry(field, index) => PlaceNumbers {
                kind: 4,
                field: number_of(field),
                entry: index as u64,
                ..PlaceNumbers::none()
            },
        }
    }

    /// The numbers of a place, if there is one.
    pub fn of(place: Option<FaultPlace>) -> PlaceNumbers
        ensures { result ≡ numbers_of_place place }
    {
        match place {
            Some(place) => PlaceNumbers {
                text: number_told(place.text),
                section: number_told(place.section),
                ..PlaceNumbers::of_spot(place.spot)
            },
            None => PlaceNumbers::none(),
        }
    }

    fn spot(&self) -> Option<FaultSpot>
        ensures { result ≡ spot_of_numbers self.now }
    {
        match self.kind {
            1 => Some(FaultSpot::Segment(SegmentPlace {
                byte: self.byte as usize,
                line: (self.line % 4294967296) as u32,
                segment: self.column as usize,
            })),
            2 => Some(FaultSpot::Reading {
                line: self.line as usize,
                column: self.column as usize,
                byte: self.byte as usize,
            }),
            3 => Some(FaultSpot::Member(field_of(self.field)?)),
            4 => Some(FaultSpot::Entry(field_of(self.field)?, self.entry as usize)),
            _ => None,
        }
    }

    /// The place with these numbers. None if there is none.
    pub fn place(&self) -> Option<FaultPlace>
        ensures { result ≡ place_of_numbers self.now }
    {
        Some(FaultPlace {
            text: told_number(self.text),
            section: told_number(self.section),
            spot: self.spot()?,
        })
    }
}

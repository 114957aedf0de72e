//! The numbers of the fields of a JSON source map.
ghost use Rattle.std.specs.Prelude.{◌≡◌};
ghost use Rattle.oxc_sourcemap_c.specs.Words.{number_of_field, field_of};

use oxc_sourcemap_tokens::Field;

/// The number of a field of a JSON source map.
pub(crate) fn number_of(field: Field) -> u32
    ensures { result ≡ number_of_field field }
{
    match field {
        Field::Object => 0,
        Field::Version => 1,
        Field::File => 2,
        Field::Mappings => 3,
        Field::SourceRoot => 4,
        Field::Sources => 5,
        Field::SourcesContent => 6,
        Field::Names => 7,
        Field::DebugId => 8,
        Field::IgnoreList => 9,
        Field::GoogleIgnoreList => 10,
        Field::Sections => 11,
        Field::Offset => 12,
        Field::Map => 13,
    }
}

/// The field of a JSON source map that has this number.
pub(crate) fn field_of(number: u32) -> Option<Field>
    ensures { result ≡ field_of number }
{
    match number {
        0 => Some(Field::Object),
        1 => Some(Field::Version),
        2 => Some(Field::File),
        3 => Some(Field::Mappings),
        4 => Some(Field::SourceRoot),
        5 => Some(Field::Sources),
        6 => Some(Field::SourcesContent),
        7 => Some(Field::Names),
        8 => Some(Field::DebugId),
        9 => Some(Field::IgnoreList),
        10 => Some(Field::GoogleIgnoreList),
        11 => Some(Field::Sections),
        12 => Some(Field::Offset),
        13 => Some(Field::Map),
        _ => None,
    }
}

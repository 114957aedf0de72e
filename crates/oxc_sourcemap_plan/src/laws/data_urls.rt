//! The law of data URLs.
ghost use Rattle.oxc_sourcemap_plan.specs.Words.{TextsReadBack, MapsReadBack};

/// What `to_data_url` writes, `decode_data_url` reads back: the data URL of a text has that text (`texts`), and that of a map
/// the JSON text that `to_json_string` writes (`maps`).
pub fn data_urls_read_back()
    ensures texts { TextsReadBack }
    ensures maps { MapsReadBack }
{}

//! `diff`: where two maps answer differently.
use crate::scopes::are_scopes_equal;
use oxc_sourcemap_tokens::{Position, Token};
use sourcemap_files::{Asked, Status, Written, map_of_file, print, read_map};
use sourcemap_run::{Tracer, apply_root, count_differences, first_difference_of_parts};
use sourcemap_words::Outcome;
use std::alloc::{AllocError, Global};

/// The places at which an answer may begin to differ: each token's, and the column after it.
fn push_places(tokens: &[Token], places: &mut Vec<(u32, u32)>) -> Result<(), AllocError> {
    for token in tokens {
        let (line, column) = (token.get_dst_line(), token.get_dst_col());
        places.push((line, column))?;
        places.push((line, column.saturating_add(1)))?;
    }
    Ok(())
}

/// Those of both maps, each once.
fn places_of(alloc: Global, a: &Tracer, b: &Tracer) -> Result<Vec<(u32, u32)>, AllocError> {
    let mut places = Vec::new(alloc);
    push_places(a.parts().tokens.as_slice(), &mut places)?;
    push_places(b.parts().tokens.as_slice(), &mut places)?;
    places.sort()?;
    places.dedup();
    Ok(places)
}

/// A map of an argument.
#[derive(Drop)]
struct Side {
    /// With its source root applied, and without contents if they are not to be compared.
    tracer: Tracer,
    written: Written,
}

impl Side {
    fn read(asked: &Asked<'_, '_>, name: &str) -> Outcome<Side> {
        let map = map_of_file(asked.rt, asked.word(name), asked.places())?;
        let mut parts = read_map(asked.rt, &map)?;
        if asked.has("no-contents") {
            parts.source_contents = Vec::new(asked.alloc());
        }
        apply_root(asked.alloc(), &mut parts)?;
        let tracer = Tracer::new(asked.alloc(), parts)?;
        Ok(Side {
            tracer,
            written: map.written,
        })
    }
}

/// Whether two maps have the same scopes. A compiled map has none of its own, and is not compared.
fn have_same_scopes(alloc: Global, a: &Written, b: &Written) -> Outcome<bool> {
    match (a, b) {
        (Written::Text(a), Written::Text(b)) => are_scopes_equal(alloc, a.as_str(), b.as_str()),
        _ => Ok(true),
    }
}

/// The line that is printed of a first difference.
fn difference_line(
    alloc: Global,
    first: Position,
    count: usize,
    of: usize,
    json: bool,
) -> Result<String, AllocError> {
    let (line, column) = (first.line, first.column);
    if json {
        return format!(in alloc;
            "{{\"different\":true,\"line\":{line},\"column\":{column},\"places\":{count},\"of\":{of}}}\n"
        );
    }
    format!(in alloc; "{line}:{column}: the first difference; {count} of {of} positions differ\n")
}

/// At how many places two maps answer differently, and how many places there are.
fn count_of(alloc: Global, a: &Tracer, b: &Tracer) -> Result<(usize, usize), AllocError> {
    let places = places_of(alloc, a, b)?;
    Ok((count_differences(a, b, places.as_slice()), places.len()))
}

/// Prints, for two maps that otherwise agree, whether their scopes differ.
fn tell_scopes(asked: &Asked<'_, '_>, a: &Written, b: &Written) -> Outcome<Status> {
    let is_same = have_same_scopes(asked.alloc(), a, b)?;
    let text = match (is_same, asked.has("json")) {
        (true, true) => "{\"different\":false}\n",
        (true, false) => "",
        (false, true) => "{\"different\":true,\"member\":\"scopes\"}\n",
        (false, false) => "the scopes differ, and nothing else\n",
    };
    print(asked.rt, text)?;
    Ok(Status::of(is_same))
}

/// Prints whether two maps answer differently, and where first.
fn tell(asked: &Asked<'_, '_>, a: &Side, b: &Side) -> Outcome<Status> {
    let Some(first) = first_difference_of_parts(a.tracer.parts(), b.tracer.parts()) else {
        return tell_scopes(asked, &a.written, &b.written);
    };
    let (count, of) = count_of(asked.alloc(), &a.tracer, &b.tracer)?;
    let text = difference_line(asked.alloc(), first, count, of, asked.has("json"))?;
    print(asked.rt, text.as_str())?;
    Ok(Status::Nothing)
}

// The proof of a function grows with what it owns times the places where it may end, so the rest of this is `tell`.
/// Runs the command `diff`.
pub fn run(asked: &Asked<'_, '_>) -> Outcome<Status> {
    let a = Side::read(asked, "A")?;
    let b = Side::read(asked, "B")?;
    tell(asked, &a, &b)
}

//! What the program `sourcemap` writes, as functions over values. The program reads files and words, and prints.
#![tactic(auto)]

mod answers;
mod bundling;
mod contents_text;
mod contexts;
mod counting;
mod covered;
mod debug_ids;
mod differing;
mod frames;
mod page;
mod raw_lines;
mod rebasing;
mod sizes;
mod texts;
mod totals;
mod tracer;

pub use answers::{Style, push_answer, push_answers, push_members};
pub use bundling::{Bundle, line_ends, with_line_end};
pub use contents_text::{Change, changed, cut_contents, push_contents, push_entries, push_value};
pub use contexts::{Content, lines_are_counted};
pub use counting::{Block, Mark, missed_ranges, push_marks};
pub use covered::{
    counted_lines, covered_tells_apart, lcov_tells_apart, percent, push_covered, push_lcov,
    push_missed, ran,
};
pub use debug_ids::{
    Agreement, LINE_ENDS, Origin, are_same_ids, code_with_debug_id, debug_id_in_line,
    debug_id_member, debug_id_of_code, debug_id_of_map, made_debug_id, map_with_debug_id,
    tail_start,
};
pub use differing::count_differences;
pub use frames::{Cut, Frame, Paint, Target, answer_to, frame_position, push_frame, push_line};
pub use oxc_sourcemap_lookup::Bias;
pub use oxc_sourcemap_parts::apply_root;
pub use oxc_sourcemap_queries::first_difference_of_parts;
pub use page::{DATA_MARK, data_url, fill_template};
pub use raw_lines::{Splice, push_spliced, text_of};
pub use rebasing::rebase_sources;
pub use sizes::{Start, sizes_of, starts_of};
pub use texts::{
    from_base, push_number, push_number_member, push_number_part, push_object, push_original,
    push_text_member,
};
pub use totals::{LineTotals, Totals, add_marks, totals_add_up};
pub use tracer::{Answer, Spot, Tracer};

//! The texts of a plan.
ghost use Rattle.std.specs.Prelude.{◌≡◌, ◌++◌, OnOk, IfOk};
ghost use Rattle.oxc_sourcemap_plan.specs.Words.{lent_items, texts_of};

use crate::plan::Plan;
use oxc_sourcemap_tokens::Memory;
use std::alloc::Global;

/// Appends the texts of a plan.
fn push_texts<'t>(plan: &Plan<'t>, texts: &mut Vec<&'t str>) -> Memory<()>
    ensures { OnOk result (lent_items texts.new.items
        ≡ lent_items texts.old.items ++ texts_of plan.now) }
{
    match plan {
        Plan::Read(text) => Ok(texts.push(*text)?),
        Plan::ReadSorted(text) => Ok(texts.push(*text)?),
        Plan::Rewrite(part) => push_texts(part, texts),
        Plan::ApplyRoot(part) => push_texts(part, texts),
        Plan::Simplify(part) => push_texts(part, texts),
        Plan::Join(parts) => {
            for (part, _) in parts {
                push_texts(part, texts)?;
            }
            Ok(())
        }
        Plan::JoinAt(parts) => {
            for (piece, _, _) in parts {
                push_texts(piece, texts)?;
            }
            Ok(())
        }
        Plan::Compose(first, second) => {
            push_texts(first, texts)?;
            push_texts(second, texts)
        }
        Plan::Remap(first, inputs) => {
            push_texts(first, texts)?;
            for (_, input) in inputs {
                push_texts(input, texts)?;
            }
            Ok(())
        }
    }
}

/// The texts of a plan, in the order in which it is evaluated: that of its words. A text that is read twice is there twice.
pub(crate) fn plan_texts<'t>(alloc: Global, plan: &Plan<'t>) -> Memory<Vec<&'t str>>
    ensures { IfOk result (λ texts. lent_items texts.items ≡ texts_of plan.now) }
{
    let mut texts = Vec::new(alloc);
    push_texts(plan, &mut texts)?;
    Ok(texts)
}

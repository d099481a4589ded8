// A line of the coder's input, `code NAME QUANTITY` or `report NAME CODE..` with one space between two fields, and its answer.

ghost use Rattle.std.specs.Prelude.{◌≡◌, List, ◌∷◌, ℕ, Some};
ghost use Rattle.text.specs.LineFields.{fields_of};
ghost use Rattle.coder.specs.Names.{IsVerb};
ghost use Rattle.coder.specs.Lines.{Answers};

use crate::names::Verb;
use crate::{code_text, names, report_text};
use text::SaidLine;

pub fn answer(line: &[u8]) -> SaidLine
    ensures { Answers line.now result }
{
    let end = text::field_end(line, 0);
    if end == line.len() {
        return SaidLine::Unreadable;
    }
    match names::verb_of(&line[..end]) {
        Some(verb) => named(verb, &line[end + 1..]),
        None => SaidLine::Unreadable,
    }
}

// The answer for a line whose verb is that and whose fields after it are those. How many come after the name is left to what reads them.
fn named(verb: Verb, fields: &[u8]) -> SaidLine
    ensures { (line word : List ℕ) → fields_of line ≡ word ∷ fields_of fields.now → IsVerb word (Some verb) → Answers line result }
{
    let end = text::field_end(fields, 0);
    if end == fields.len() {
        return SaidLine::Unreadable;
    }
    let Some(name) = names::name_of(&fields[..end]) else {
        return SaidLine::Unreadable;
    };
    let rest = &fields[end + 1..];
    match verb {
        Verb::Code => code_text::coded(name, rest),
        Verb::Report => report_text::reported(name, rest),
    }
}

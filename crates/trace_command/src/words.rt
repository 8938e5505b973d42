//! The names of numbers and sides.

ghost use Rattle.std.specs.Prelude.{◌≡◌};
ghost use Rattle.report_text.specs.Report.{side_text};
ghost use Rattle.trace_command.specs.Words.{number_name as name_of_number};

use step_kinds::{NumberName, Side};

/// Returns the name of a number, with the comma before it and the colon after it.
pub fn number_name(name: NumberName) -> &'static str
    ensures { result.now ≡ name_of_number name }
{
    match name {
        NumberName::Bits => ",\"bits\":",
        NumberName::Cap => ",\"cap\":",
        NumberName::Count => ",\"count\":",
        NumberName::Head => ",\"head\":",
        NumberName::Index => ",\"index\":",
        NumberName::Len => ",\"len\":",
        NumberName::Max => ",\"max\":",
        NumberName::Number => ",\"number\":",
        NumberName::Offset => ",\"offset\":",
        NumberName::Own => ",\"own\":",
        NumberName::Part => ",\"part\":",
        NumberName::Port => ",\"port\":",
        NumberName::Queue => ",\"queue\":",
        NumberName::Seen | NumberName::SeenSize => ",\"seen\":",
        NumberName::Session => ",\"session\":",
        NumberName::Tail => ",\"tail\":",
        NumberName::Value => ",\"value\":",
        NumberName::Window => ",\"window\":",
    }
}

/// Returns the letter of a side.
pub fn side_name(side: Side) -> &'static str
    ensures { result.now ≡ side_text side }
{
    match side {
        Side::A => "A",
        Side::B => "B",
    }
}

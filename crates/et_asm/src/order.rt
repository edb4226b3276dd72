//! Where lines may stand.

ghost use Rattle.std.specs.Prelude.{◌≡◌};
ghost use Rattle.et_asm.specs.Order.{opens, is_end_line, lines_of_body, step, is_inside, is_finished, may_stand};

use et_listing::line::{Line, Parsed};

/// What stood last.
#[derive(Clone, Copy, Debug, PartialEq, Eq)]
pub(crate) enum Stage {
    /// Nothing.
    Start,
    /// The class line, or an interface.
    Interfaces,
    /// A field.
    Fields,
    /// A whole method.
    Methods,
    /// A part of a body.
    Body,
}

/// Whether a line may stand at a stage.
pub(crate) fn may_stand(stage: Stage, line: &Line) -> bool
    ensures { result ≡ may_stand stage line.now }
{
    match line {
        Line::Blank => true,
        Line::Class(..) => stage == Stage::Start,
        Line::Interface(_) => stage == Stage::Interfaces,
        Line::Field(..) => stage == Stage::Interfaces || stage == Stage::Fields,
        Line::Method(..) => {
            stage == Stage::Interfaces || stage == Stage::Fields || stage == Stage::Methods
        }
        Line::Label(_) | Line::Instruction(_) | Line::Catch(..) | Line::End => stage == Stage::Body,
    }
}

/// Whether a line opens a body.
pub(crate) fn opens(line: &Line) -> bool
    ensures { result ≡ opens line.now }
{
    match line {
        Line::Method(_, _, _, Some(_)) => true,
        _ => false,
    }
}

/// Whether a line ends a body.
pub(crate) fn is_end(line: &Line) -> bool
    ensures { result ≡ is_end_line line.now }
{
    match line {
        Line::End => true,
        _ => false,
    }
}

/// Whether a stage is a part of a body.
pub(crate) fn is_inside(stage: Stage) -> bool
    ensures { result ≡ is_inside stage }
{
    match stage {
        Stage::Body => true,
        _ => false,
    }
}

/// Whether a listing may end at a stage.
pub(crate) fn is_finished(stage: Stage) -> bool
    ensures { result ≡ is_finished stage }
{
    match stage {
        Stage::Start | Stage::Body => false,
        _ => true,
    }
}

/// What stands last behind a line.
pub(crate) fn step(stage: Stage, line: &Line) -> Stage
    ensures { result ≡ step stage line.now }
{
    if is_inside(stage) {
        return if is_end(line) {
            Stage::Methods
        } else {
            Stage::Body
        };
    }
    match line {
        Line::Class(..) | Line::Interface(_) => Stage::Interfaces,
        Line::Field(..) => Stage::Fields,
        Line::Method(_, _, _, None) => Stage::Methods,
        Line::Method(_, _, _, Some(_)) => Stage::Body,
        _ => stage,
    }
}

/// The lines of a body, up to its `end`, of the lines behind the one that opens it.
pub(crate) fn body_of<'b, 'a>(lines: &'b [Parsed<'a>]) -> &'b [Parsed<'a>]
    ensures { result.now ≡ lines_of_body lines.now }
{
    for i in 0..lines.len() {
        if is_end(&lines[i].line) {
            return &lines[..i];
        }
    }
    lines
}

// The types of a script, and its bodies where they stand.
ghost use Rattle.std.specs.Prelude.{◌≡◌, ◌+◌, ◌<◌, ◌^◌, map};
ghost use Rattle.rules_text.specs.nodes.Tree.{size};
ghost use Rattle.rules_data.specs.types.Entrypoints.{parameter};
ghost use Rattle.rules_code.specs.typing.Scripts.{of_contents, parameter_of, typed_as, typed_view, typed_views};
ghost use Rattle.mich_base.specs.TypeView.{kind};
ghost use Rattle.mich_base.specs.View.{tree};
ghost use Rattle.mich_outline.specs.Attributes.{asked};
ghost use Rattle.mich_types.specs.Entered.{IsParameterFault};
ghost use Rattle.mich_outline.specs.Answers.{IsFault, IsFound};
ghost use Rattle.mich_outline.specs.Outlines.{outline_at};
ghost use Rattle.mich_outline.specs.View.{contents_of, entered_of, outline_of, placed_of, view_of, written_of};

use crate::arguments::{Attribute, type_argument};
use crate::content::WrittenView;
use crate::error::TypingError;
use crate::gathering::{Contents, read_sections};
use crate::placed::Placed;
use mich_base::{Node, Rows, Text, Ty};
use mich_types::{Parameter, TypeError, read_parameter};
use std::alloc::Global;

/// A script whose types are read, and whose bodies aren't typed: the parameter with its entrypoints, the type of the storage,
/// the code, and the views in the order in which they are written (Michelson reference, "Scripts").
#[derive(Debug, Drop)]
pub struct Outline<'a> {
    pub parameter: Parameter,
    pub storage: Ty,
    pub code: Placed<'a>,
    pub views: Rows<View<'a>>,
}

/// A view whose types are read: its name, the types of its input and output, and its body (Octez documentation, "Smart contract
/// views").
#[derive(Debug, Drop)]
pub struct View<'a> {
    pub name: Text,
    pub input: Ty,
    pub output: Ty,
    pub body: Placed<'a>,
}

/// The types of the script that the node at a location is, with its bodies where they stand (Michelson reference, "Scripts").
/// Fault has the location of the first of these: another node than a sequence, at it; from left to right a section that is
/// unknown or repeated, has other arguments or the name of no view or of an earlier one, at it; a missing section, at the whole;
/// what `read_parameter` finds in the parameter; the node of the storage that is no type, or the storage where it isn't storable
/// or has more than 2,000 nodes; and the same of the input and then the output of each view, which are packable. Memory where
/// there is no room.
pub fn read_outline<'a>(alloc: Global, node: &'a Node, at: u32) -> Result<Outline<'a>, TypingError>
    requires { at + size (tree node.now) < 2 ^ 32 }
    ensures { IsFound outline_of (outline_at at (tree node.now)) result }
{
    match node {
        Node::Seq(nodes) => {
            let contents = read_sections(alloc, nodes, at + 1)?;
            read_contents(alloc, &contents, at)
        }
        _ => Err(TypingError::Fault(at)),
    }
}

// The types of the sections of the script at a location.
fn read_contents<'a>(
    alloc: Global,
    contents: &Contents<'a>,
    at: u32,
) -> Result<Outline<'a>, TypingError>
    ensures { IsFound outline_of (of_contents at (contents_of contents.now)) result }
{
    let Some(parameter) = contents.parameter else {
        return Err(TypingError::Fault(at));
    };
    let Some(storage) = contents.storage else {
        return Err(TypingError::Fault(at));
    };
    let Some(code) = contents.code else {
        return Err(TypingError::Fault(at));
    };
    let parameter = parameter_at(alloc, parameter)?;
    let storage = typed_as(alloc, Attribute::Storable, storage)?;
    let views = read_views(alloc, &contents.views)?;
    Ok(Outline {
        parameter,
        storage,
        code,
        views,
    })
}

// The parameter of the section at its location.
fn parameter_at(alloc: Global, section: Placed<'_>) -> Result<Parameter, TypingError>
    ensures { IsFound entered_of (parameter_of (placed_of section.entry)) result }
{
    match read_parameter(alloc, section.node) {
        Ok(parameter) => Ok(parameter),
        Err(error) => Err(fault_of(error, section)),
    }
}

// The fault of the parameter of the section at its location.
#[tactic(auto, using(crate::proofs::Within::error_within))]
fn fault_of(error: TypeError, section: Placed<'_>) -> TypingError
    requires { IsParameterFault (parameter (tree section.node.now)) error }
    ensures { IsFault (parameter_of (placed_of section.entry)) result }
{
    match error {
        TypeError::BadType(location) | TypeError::RepeatedEntrypoint(location) => {
            TypingError::Fault(section.at + location)
        }
        TypeError::TypeTooLarge => TypingError::Fault(section.at + 1),
        TypeError::Memory => TypingError::Memory,
    }
}

// A type with an attribute.
fn typed_as(alloc: Global, attribute: Attribute, written: Placed<'_>) -> Result<Ty, TypingError>
    ensures { IsFound kind (typed_as (asked attribute) (placed_of written.entry)) result }
{
    match type_argument(alloc, attribute, written.node, written.at) {
        Ok(ty) => Ok(ty),
        Err(TypingError::Fault(location)) => Err(TypingError::Fault(location)),
        Err(TypingError::Memory) => Err(TypingError::Memory),
    }
}

// The types of a view.
fn read_view<'a>(alloc: Global, view: &WrittenView<'a>) -> Result<View<'a>, TypingError>
    ensures { IsFound view_of (typed_view (written_of view.now)) result }
{
    let input = typed_as(alloc, Attribute::Packable, view.input)?;
    let output = typed_as(alloc, Attribute::Packable, view.output)?;
    let name = view.name.copy(alloc)?;
    Ok(View {
        name,
        input,
        output,
        body: view.body,
    })
}

// The types of the views.
fn read_views<'a>(
    alloc: Global,
    views: &Rows<WrittenView<'a>>,
) -> Result<Rows<View<'a>>, TypingError>
    ensures { IsFound (map view_of) (typed_views (map written_of views.now)) result }
{
    let mut typed = Rows::new(alloc);
    for view in views.as_slice() {
        typed.push(read_view(alloc, view)?)?;
    }
    Ok(typed)
}

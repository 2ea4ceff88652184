// The sections of a script, from left to right.
ghost use Rattle.std.specs.Prelude.{◌≡◌, ℕ, List, ◌+◌, ◌<◌, ◌^◌, ◌||◌, not, IfOk, Some};
ghost use Rattle.std.specs.Str.{bytes_eq};
ghost use Rattle.rules_text.specs.nodes.Tree.{size, sizes};
ghost use Rattle.rules_code.specs.typing.Nodes.{inner_bodies, sections};
ghost use Rattle.rules_code.specs.typing.Sections.{content_at, no_contents, with_content, with_sections};
ghost use Rattle.mich_base.specs.View.{tree, trees};
ghost use Rattle.mich_outline.specs.Answers.{IsAdded, IsFound};
ghost use Rattle.mich_outline.specs.Named.{IsNaming, has};
ghost use Rattle.mich_outline.specs.View.{content_seen, contents_of};
ghost use Rattle.mich_outline.specs.declared.content.Content.TheVariants as section_kind;

use crate::content::{Content, WrittenView, content_at};
use crate::error::TypingError;
use crate::placed::Placed;
use mich_base::{Memory, Node, Nodes, Rows};
use mich_types::behind;
use std::alloc::Global;
use std::collections::BTreeSet;

// The sections so far, with the names of the views among them.
#[derive(Drop)]
pub(crate) struct Contents<'a> {
    pub(crate) parameter: Option<Placed<'a>>,
    pub(crate) storage: Option<Placed<'a>>,
    pub(crate) code: Option<Placed<'a>>,
    pub(crate) views: Rows<WrittenView<'a>>,
    names: BTreeSet<&'a [u8]>,
}

// Nodes as sections, the first at a location.
pub(crate) fn read_sections<'a>(
    alloc: Global,
    nodes: &'a Nodes,
    at: u32,
) -> Result<Contents<'a>, TypingError>
    requires { at + sizes (trees nodes.now) < 2 ^ 32 }
    ensures { IsFound contents_of (with_sections no_contents (sections (trees nodes.now) at)) result }
{
    let mut contents = Contents {
        parameter: None,
        storage: None,
        code: None,
        views: Rows::new(alloc),
        names: BTreeSet::new(alloc),
    };
    let mut next = at;
    for node in nodes.as_slice() {
        add_section(&mut contents, node, next)?;
        next = behind(node, next);
    }
    Ok(contents)
}

// Adds the section at a location.
fn add_section<'a>(contents: &mut Contents<'a>, node: &'a Node, at: u32) -> Result<(), TypingError>
    requires naming { IsNaming contents.old.views contents.old.names }
    requires fits { at + size (tree node.now) < 2 ^ 32 }
    ensures added { IsAdded (with_content (contents_of contents.old) at (content_at at (tree node.now) (inner_bodies (tree node.now) at))) (contents_of contents.new) result }
    ensures naming { IfOk result (λ _. IsNaming contents.new.views contents.new.names) }
{
    match content_at(node, at) {
        Some(content) => add_content(contents, content, at),
        None => Err(TypingError::Fault(at)),
    }
}

fn add_content<'a>(
    contents: &mut Contents<'a>,
    content: Content<'a>,
    at: u32,
) -> Result<(), TypingError>
    requires naming { IsNaming contents.old.views contents.old.names }
    ensures added { IsAdded (with_content (contents_of contents.old) at (content_seen (Some content.entry))) (contents_of contents.new) result }
    ensures naming { IfOk result (λ _. IsNaming contents.new.views contents.new.names) }
{
    match content {
        Content::Parameter(section) => add_parameter(contents, section, at),
        Content::Storage(section) => add_storage(contents, section, at),
        Content::Code(section) => add_code(contents, section, at),
        Content::View(view) => add_view(contents, view, at),
    }
}

fn add_parameter<'a>(
    contents: &mut Contents<'a>,
    section: Placed<'a>,
    at: u32,
) -> Result<(), TypingError>
    requires naming { IsNaming contents.old.views contents.old.names }
    ensures added { IsAdded (with_content (contents_of contents.old) at (content_seen (Some (section_kind.Parameter section.entry)))) (contents_of contents.new) result }
    ensures naming { IfOk result (λ _. IsNaming contents.new.views contents.new.names) }
{
    if contents.parameter.is_some() {
        return Err(TypingError::Fault(at));
    }
    contents.parameter = Some(section);
    Ok(())
}

fn add_storage<'a>(
    contents: &mut Contents<'a>,
    section: Placed<'a>,
    at: u32,
) -> Result<(), TypingError>
    requires naming { IsNaming contents.old.views contents.old.names }
    ensures added { IsAdded (with_content (contents_of contents.old) at (content_seen (Some (section_kind.Storage section.entry)))) (contents_of contents.new) result }
    ensures naming { IfOk result (λ _. IsNaming contents.new.views contents.new.names) }
{
    if contents.storage.is_some() {
        return Err(TypingError::Fault(at));
    }
    contents.storage = Some(section);
    Ok(())
}

fn add_code<'a>(
    contents: &mut Contents<'a>,
    section: Placed<'a>,
    at: u32,
) -> Result<(), TypingError>
    requires naming { IsNaming contents.old.views contents.old.names }
    ensures added { IsAdded (with_content (contents_of contents.old) at (content_seen (Some (section_kind.Code section.entry)))) (contents_of contents.new) result }
    ensures naming { IfOk result (λ _. IsNaming contents.new.views contents.new.names) }
{
    if contents.code.is_some() {
        return Err(TypingError::Fault(at));
    }
    contents.code = Some(section);
    Ok(())
}

// Puts a view behind the others, whose name no other has.
fn add_view<'a>(
    contents: &mut Contents<'a>,
    view: WrittenView<'a>,
    at: u32,
) -> Result<(), TypingError>
    requires naming { IsNaming contents.old.views contents.old.names }
    ensures added { IsAdded (with_content (contents_of contents.old) at (content_seen (Some (section_kind.View view.entry)))) (contents_of contents.new) result }
    ensures naming { IfOk result (λ _. IsNaming contents.new.views contents.new.names) }
{
    if !add_name(&mut contents.names, view.name.as_slice())? {
        return Err(TypingError::Fault(at));
    }
    contents.views.push(view)?;
    Ok(())
}

// Adds a name, and says whether it is new.
fn add_name<'a>(names: &mut BTreeSet<&'a [u8]>, name: &'a [u8]) -> Result<bool, Memory>
    ensures new { IfOk result (λ new. new ≡ not (has name.now names.old)) }
    ensures added { IfOk result (λ _. (q : List ℕ) → has q names.new ≡ (bytes_eq name.now q || has q names.old)) }
{
    Ok(names.insert(name)?)
}

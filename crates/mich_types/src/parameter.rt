// Parameters and their entrypoints.
ghost use Rattle.std.specs.Prelude.{◌≡◌, ◌+◌, ◌<◌, ◌^◌, [], ◌∷◌, ◌++◌, map, IfOk, MatchOption, option_map};
ghost use Rattle.rules_text.specs.nodes.Tree.{size};
ghost use Rattle.rules_data.specs.types.Kind.{or};
ghost use Rattle.rules_data.specs.types.Entrypoints.{below, bad_parameter, entries_of, find_entry, parameter, field_name, root_by, with_branch, with_branches, with_default, with_name};
ghost use Rattle.mich_base.specs.View.{tree};
ghost use Rattle.mich_base.specs.TypeView.{kind};
ghost use Rattle.mich_types.specs.Entered.{HasNoTwo, IsEntered, IsEntries, IsNoOr, IsOfTwo, IsParameter, IsSectionOf, entry_of, with_all_of};

use crate::annotations::{behind, field_name, node_name};
use crate::attributes::passable;
use crate::error::TypeError;
use crate::reading::type_at;
use mich_base::{Memory, Node, Rows, Texts, Ty, copy_type};
use mich_forms::Entrypoint;
use std::alloc::Global;

/// The parameter of a contract: its type, and all its entrypoints, `default` among them (Michelson reference, "Entrypoints").
#[derive(Debug, Drop)]
pub struct Parameter {
    pub ty: Ty,
    pub entries: Rows<Entry>,
}

/// An entrypoint: its name, its path from the root of the parameter, where true is right, and its type.
#[derive(Debug, Drop)]
pub struct Entry {
    pub name: Entrypoint,
    pub path: Rows<bool>,
    pub ty: Ty,
}

/// The entrypoint of this name. None where the parameter has none.
pub fn entrypoint<'a>(p: &'a Parameter, name: &Entrypoint) -> Option<&'a Entry>
    ensures { option_map (λ e. entry_of e.now) result ≡ find_entry name.now (map entry_of p.now.entries) }
{
    find_entry(&p.entries, name)
}

/// The parameter of a section `parameter t`, with all its entrypoints: the root where it is named, the named branches
/// in pre-order, and `default`, which is the root where nothing else has that name (Michelson reference, "Entrypoints").
/// BadType has the location of the first fault of the type as `read_type` finds it, the type where it isn't passable, or
/// a node whose name has over 31 characters or a character that names don't have; another node than such a section is
/// bad at 0. TypeTooLarge is the answer of `read_type`; RepeatedEntrypoint has the location of a branch with an earlier
/// name; Memory where there is no room for the parameter.
pub fn read_parameter(alloc: Global, section: &Node) -> Result<Parameter, TypeError>
    requires { size (tree section.now) < 2 ^ 32 }
    ensures { IsParameter (parameter (tree section.now)) result }
{
    let Some((annots, node)) = section_parts(section) else {
        return Err(TypeError::BadType(0));
    };
    let ty = type_at(alloc, node, 1)?;
    if !passable(&ty) {
        return Err(TypeError::BadType(1));
    }
    let entries = read_entries(alloc, annots, node, &ty)?;
    Ok(Parameter { ty, entries })
}

// The annotations and the type of a section `parameter t`.
fn section_parts(section: &Node) -> Option<(&Texts, &Node)>
    ensures { MatchOption result (parameter (tree section.now) ≡ bad_parameter 0) (λ p. IsSectionOf (tree section.now) p.0.now (tree p.1.now)) }
{
    let Node::Prim(app) = section else {
        return None;
    };
    if app.name.as_slice() != b"parameter".as_slice() {
        return None;
    }
    match app.args.only() {
        Some(node) => Some((&app.annots, node)),
        None => None,
    }
}

// The entrypoints of the type at location 1 under a section with these annotations.
fn read_entries(
    alloc: Global,
    annots: &Texts,
    node: &Node,
    ty: &Ty,
) -> Result<Rows<Entry>, TypeError>
    requires { 1 + size (tree node.now) < 2 ^ 32 }
    ensures { IsEntries (entries_of annots.now (tree node.now) (kind ty.now)) result }
{
    let root = Rows::new(alloc);
    let mut entries = Rows::new(alloc);
    add_root(alloc, &mut entries, annots, node, ty)?;
    add_branches(alloc, &mut entries, ty, node, 1, &root)?;
    add_default(alloc, &mut entries, ty)?;
    Ok(entries)
}

// Puts the root behind the other entrypoints, where the section or else the type names it.
fn add_root(
    alloc: Global,
    entries: &mut Rows<Entry>,
    annots: &Texts,
    node: &Node,
    ty: &Ty,
) -> Result<(), TypeError>
    ensures { IsEntered (with_branch (map entry_of entries.old) (root_by (field_name annots.now) (tree node.now) (kind ty.now))) entries.new result }
{
    let root = Rows::new(alloc);
    if let Some(name) = field_name(annots) {
        return add_entry(alloc, entries, name, 0, &root, ty);
    }
    if let Some(name) = node_name(node) {
        return add_entry(alloc, entries, name, 1, &root, ty);
    }
    Ok(())
}

// Puts the root as `default` behind the other entrypoints, where none of them has that name.
fn add_default(alloc: Global, entries: &mut Rows<Entry>, ty: &Ty) -> Result<(), TypeError>
    ensures { IsEntered (with_default (kind ty.now) (map entry_of entries.old)) entries.new result }
{
    let name = Entrypoint::default_entrypoint();
    if find_entry(entries, &name).is_none() {
        let path = Rows::new(alloc);
        let ty = copy_type(alloc, ty)?;
        entries.push(Entry { name, path, ty })?;
    }
    Ok(())
}

fn find_entry<'a>(entries: &'a Rows<Entry>, name: &Entrypoint) -> Option<&'a Entry>
    ensures { option_map (λ e. entry_of e.now) result ≡ find_entry name.now (map entry_of entries.now) }
{
    for candidate in entries.as_slice() {
        if candidate.name.as_slice() == name.as_slice() {
            return Some(candidate);
        }
    }
    None
}

fn copy_path(alloc: Global, path: &Rows<bool>) -> Result<Rows<bool>, Memory>
    ensures { IfOk result (λ p. p ≡ path.now) }
{
    Ok(Rows::from_vec(path.as_slice().to_vec(alloc)?))
}

// A path with one step more.
fn step(alloc: Global, path: &Rows<bool>, right: bool) -> Result<Rows<bool>, Memory>
    ensures { IfOk result (λ p. p ≡ path.now ++ right ∷ []) }
{
    let mut steps = copy_path(alloc, path)?;
    steps.push(right)?;
    Ok(steps)
}

// Puts the entrypoint of a name, which stands at a location, behind the others.
#[tactic(auto, using(std::proofs::lemmas::Bool::false_from_ne_true))]
fn add_entry(
    alloc: Global,
    entries: &mut Rows<Entry>,
    name: &[u8],
    at: u32,
    path: &Rows<bool>,
    ty: &Ty,
) -> Result<(), TypeError>
    ensures { IsEntered (with_name (map entry_of entries.old) at name.now path.now (kind ty.now)) entries.new result }
{
    let Some(name) = Entrypoint::read(name) else {
        return Err(TypeError::BadType(at));
    };
    if find_entry(entries, &name).is_some() {
        return Err(TypeError::RepeatedEntrypoint(at));
    }
    let path = copy_path(alloc, path)?;
    let ty = copy_type(alloc, ty)?;
    entries.push(Entry { name, path, ty })?;
    Ok(())
}

// Puts the branch at a location and those below it behind the other entrypoints, where they have names.
#[cycle(branches)]
fn add_branch(
    alloc: Global,
    entries: &mut Rows<Entry>,
    ty: &Ty,
    node: &Node,
    at: u32,
    path: &Rows<bool>,
) -> Result<(), TypeError>
    requires { at + size (tree node.now) < 2 ^ 32 }
    ensures { IsEntered (with_all_of (map entry_of entries.old) at (tree node.now) path.now (kind ty.now)) entries.new result }
{
    if let Some(name) = node_name(node) {
        add_entry(alloc, entries, name, at, path, ty)?;
    }
    add_branches(alloc, entries, ty, node, at, path)
}

// Puts the branches below the node at a location behind the other entrypoints, where they have names.
#[cycle(branches)]
fn add_branches(
    alloc: Global,
    entries: &mut Rows<Entry>,
    ty: &Ty,
    node: &Node,
    at: u32,
    path: &Rows<bool>,
) -> Result<(), TypeError>
    requires { at + size (tree node.now) < 2 ^ 32 }
    ensures { IsEntered (with_branches (map entry_of entries.old) (below (kind ty.now) at (tree node.now) path.now)) entries.new result }
{
    let Some((left_type, right_type)) = or_parts(ty) else {
        return Ok(());
    };
    let Some((left_node, right_node)) = two_arguments(node) else {
        return Ok(());
    };
    let left_path = step(alloc, path, false)?;
    let right_path = step(alloc, path, true)?;
    let right_at = behind(left_node, at + 1);
    add_branch(alloc, entries, left_type, left_node, at + 1, &left_path)?;
    add_branch(
        alloc,
        entries,
        right_type,
        right_node,
        right_at,
        &right_path,
    )
}

// The parts of an `or`.
fn or_parts(ty: &Ty) -> Option<(&Ty, &Ty)>
    ensures { MatchOption result (IsNoOr (kind ty.now)) (λ p. kind ty.now ≡ or (kind p.0.now) (kind p.1.now)) }
{
    match ty {
        Ty::Or(left, right) => Some((left.get(), right.get())),
        _ => None,
    }
}

// The arguments of an application with two.
fn two_arguments(node: &Node) -> Option<(&Node, &Node)>
    ensures { MatchOption result (HasNoTwo (tree node.now)) (λ p. IsOfTwo (tree node.now) (tree p.0.now) (tree p.1.now)) }
{
    match node {
        Node::Prim(app) => app.args.both(),
        _ => None,
    }
}

// The views that a JSON value names.
ghost use Rattle.std.specs.Prelude.{◌≡◌, ◌++◌, IfOk, IfErr, None, Some, false};
ghost use Rattle.std.specs.Option.{option_map, option_map_or};
ghost use Rattle.serde_json.specs.Find.{as_object};
ghost use Rattle.serde_json.specs.View.{members_view, view};
ghost use Rattle.frac_core.specs.Stops.{IsRefused};
ghost use Rattle.view_tree.specs.JsonTrees.{Branch, Branches, JsonTree};
ghost use Rattle.view_tree.specs.JsonTrees.{are_members, branch_of, elements_of, height, height_in};
ghost use Rattle.view_tree.specs.JsonTrees.{is_member, is_name, name_under, place_of, tree_of};
ghost use Rattle.view_tree.specs.Plans.{IsPlanOf, pairs, pairs_in, pairs_of};

use frac_core::Stop;
use serde_json::{Map, Value};
use span_text::names;
use std::alloc::Global;

/// A view to be made, and the name of its parent.
#[derive(Clone, Copy)]
pub(crate) struct Planned<'v> {
    pub name: &'v str,
    pub parent: &'v str,
}

/// What a JSON value makes: views in preorder, and their height, below the view of the name `place`.
#[derive(Drop)]
pub(crate) struct Plan<'v> {
    pub place: &'v str,
    pub views: Vec<Planned<'v>>,
    pub height: usize,
}

/// The value has another shape than a tree.
#[derive(Clone, Copy)]
pub(crate) struct Misshapen;

// Whether the text is a name.
fn is_name(text: &str) -> bool
    ensures { result ≡ is_name text.now }
{
    match names::raw_name(text.as_bytes()) {
        Ok((_, rest)) => rest.is_empty(),
        Err(_) => false,
    }
}

// The name under a key.
fn name_under<'v>(value: &'v Value, key: &str) -> Option<&'v str>
    ensures { option_map (λ name. name.now) result ≡ name_under key.now (view value.now) }
{
    let name = value.get(key)?.as_str()?;
    if is_name(name) { Some(name) } else { None }
}

// The name under `in`, or the window's.
fn place(value: &Value) -> Option<&str>
    ensures { option_map (λ name. name.now) result ≡ place_of (view value.now) }
{
    if value.get("in").is_none() {
        return Some("window");
    }
    name_under(value, "in")
}

// Whether an object may have a member of this key.
fn is_member(key: &str, is_outermost: bool) -> bool
    ensures { result ≡ is_member is_outermost key.now }
{
    key == "name" || key == "children" || (is_outermost && key == "in")
}

// Whether an object may have each of these members.
fn are_members(members: &Map<String, Value>, is_outermost: bool) -> bool
    ensures { result ≡ are_members is_outermost (members_view members.now.entries) }
{
    for (key, _) in members.iter() {
        if !is_member(key.as_str(), is_outermost) {
            return false;
        }
    }
    true
}

// Whether the value is an object with no other members than it may have.
fn has_shape(value: &Value, is_outermost: bool) -> bool
    ensures { result ≡ option_map_or (are_members is_outermost) (as_object (view value.now)) false }
{
    match value.as_object() {
        Some(members) => are_members(members, is_outermost),
        None => false,
    }
}

// Appends the views of an object, and answers their height.
#[cycle(plan)]
fn plan_object<'v>(
    value: &'v Value,
    is_outermost: bool,
    parent: &'v str,
    views: &mut Vec<Planned<'v>>,
) -> Result<usize, Stop<Misshapen>>
    ensures planned { IfOk result (λ high. (b : Branch) × (branch_of is_outermost (view value.now) ≡ Some b)
        × (pairs_of views.new.items ≡ pairs_of views.old.items ++ pairs parent.now b) × (high ≡ height b)) }
    ensures other { IfErr result (λ stop. IsRefused stop
        → branch_of is_outermost (view value.now) ≡ None) }
{
    if !has_shape(value, is_outermost) {
        return Err(Stop::Refused(Misshapen));
    }
    let Some(name) = name_under(value, "name") else {
        return Err(Stop::Refused(Misshapen));
    };
    views.push(Planned { name, parent })?;
    let children = match value.get("children") {
        Some(children) => children,
        None => return Ok(1),
    };
    let height = plan_elements(children, name, views)?;
    Ok(height + 1)
}

// Appends the views of the objects in an array, and answers their height.
#[cycle(plan)]
fn plan_elements<'v>(
    value: &'v Value,
    parent: &'v str,
    views: &mut Vec<Planned<'v>>,
) -> Result<usize, Stop<Misshapen>>
    ensures planned { IfOk result (λ high. (bs : Branches) × (elements_of (view value.now) ≡ Some bs)
        × (pairs_of views.new.items ≡ pairs_of views.old.items ++ pairs_in parent.now bs)
        × (high ≡ height_in bs)) }
    ensures other { IfErr result (λ stop. IsRefused stop → elements_of (view value.now) ≡ None) }
{
    let Some(elements) = value.as_array() else {
        return Err(Stop::Refused(Misshapen));
    };
    let mut height: usize = 0;
    for element in elements {
        height = height.max(plan_object(element, false, parent, views)?);
    }
    Ok(height)
}

/// The plan of a JSON value.
pub(crate) fn plan_of(alloc: Global, value: &Value) -> Result<Plan<'_>, Stop<Misshapen>>
    ensures planned { IfOk result (λ plan. (tree : JsonTree) × (tree_of (view value.now) ≡ Some tree)
        × IsPlanOf plan tree) }
    ensures other { IfErr result (λ stop. IsRefused stop → tree_of (view value.now) ≡ None) }
{
    let Some(place) = place(value) else {
        return Err(Stop::Refused(Misshapen));
    };
    let mut views = Vec::new(alloc);
    let height = plan_object(value, true, place, &mut views)?;
    Ok(Plan {
        place,
        views,
        height,
    })
}

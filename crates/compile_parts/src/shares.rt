// The attributes of views in terms.
ghost use Rattle.std.specs.Prelude.{◌≡◌, ◌≢◌, ℕ, ◌<◌, ◌≤◌, pos, ◌*◌, ◌*ℤ◌, false, length};
ghost use Rattle.problem_core.specs.Layout.{coefficient};
ghost use Rattle.std.specs.Prelude.{slice_index_or, All, AllPairs, IsTrue, IfOk, IfSome, OnOk};
ghost use Rattle.std.specs.Option.{option_map};
ghost use Rattle.view_tree.specs.Views.{view_named};
ghost use Rattle.problem_core.specs.Kept.{IsNumber};
ghost use Rattle.view_tree.specs.declared.limits.TheConstants.{ID_LIMIT};
ghost use Rattle.compile_parts.specs.Meaning as meaning;
ghost use Rattle.compile_parts.specs.Addends.{addend_view, IsKept};
ghost use Rattle.compile_parts.specs.Shares.{form, share_fraction, AreHalves, IsAttrSum, IsOff};

use crate::addends::Addend;
use frac_core::{Frac, OutOfMemory};
use problem_core::Term;
use script_text::AttrWord;
use std::alloc::Global;
use view_tree::{Tree, ViewId};

/// So many times an edge, and so many times a size, of a view.
#[derive(Clone, Copy)]
pub struct EdgeAndSize {
    pub edge: Term,
    pub size: Term,
}

/// So many times half of such a sum.
#[derive(Clone, Copy)]
pub struct Share {
    pub by: Frac,
    pub of: EdgeAndSize,
}

// So many times an attribute.
fn times(attr: u32, by: u8) -> Term
    ensures { result ≡ record { attr = attr; by = pos by } }
{
    Term {
        attr,
        by: i64::from(by),
    }
}

/// An attribute as a sum of the four kept ones: `scale` times the attribute is `edge` times an edge plus
/// `size` times a size, with the least such scale. The edge and the size are the left and the width of the
/// view, or its top and its height.
#[derive(Clone, Copy)]
pub struct AttrSum {
    pub scale: u8,
    pub edge: u8,
    pub size: u8,
    pub is_across: bool,
}

fn across(scale: u8, edge: u8, size: u8) -> AttrSum
    ensures { result ≡ meaning.across scale edge size }
{
    AttrSum {
        scale,
        edge,
        size,
        is_across: true,
    }
}

fn down(scale: u8, edge: u8, size: u8) -> AttrSum
    ensures { result ≡ meaning.down scale edge size }
{
    AttrSum {
        scale,
        edge,
        size,
        is_across: false,
    }
}

/// The attribute as a sum of the four kept ones.
pub fn attr_sum(word: AttrWord) -> AttrSum
    ensures sum { result ≡ meaning.attr_sum word }
    ensures kept { IsAttrSum result }
{
    match word {
        AttrWord::Left | AttrWord::Leading => across(1, 1, 0),
        AttrWord::Right | AttrWord::Trailing => across(1, 1, 1),
        AttrWord::CenterX => across(2, 2, 1),
        AttrWord::Width => across(1, 0, 1),
        AttrWord::Top => down(1, 1, 0),
        AttrWord::Bottom => down(1, 1, 1),
        AttrWord::CenterY => down(2, 2, 1),
        AttrWord::Height => down(1, 0, 1),
    }
}

/// So many times the edge, and so many times the size, of a view.
pub fn edge_and_size(is_across: bool, view: ViewId, edge: u8, size: u8) -> EdgeAndSize
    requires { view.0 < ID_LIMIT }
    ensures form { form result ≡ meaning.edge_and_size is_across view.0 edge size }
    ensures edge { IsNumber result.edge.attr }
    ensures size { IsNumber result.size.attr }
    ensures rising { result.edge.attr < result.size.attr }
{
    let of = view.attributes();
    if is_across {
        EdgeAndSize {
            edge: times(of.left, edge),
            size: times(of.width, size),
        }
    } else {
        EdgeAndSize {
            edge: times(of.top, edge),
            size: times(of.height, size),
        }
    }
}

fn twice(view: ViewId, word: AttrWord) -> EdgeAndSize
    requires { view.0 < ID_LIMIT }
    ensures form { form result ≡ meaning.doubled view.0 word }
    ensures halves { AreHalves result }
{
    let sum = attr_sum(word);
    let by = 2 / sum.scale;
    edge_and_size(sum.is_across, view, by * sum.edge, by * sum.size)
}

/// The live view of this name in the tree, if there is one.
pub fn id_named(tree: &Tree, name: &str) -> Option<ViewId>
    ensures id { option_map (λ id. id.0) result
        ≡ option_map (λ v. v.id) (view_named tree.now.views name.now) }
    ensures within { IfSome result (λ id. id.0 < ID_LIMIT) }
{
    let _count = tree.len(); // for the proof: what a tree keeps
    tree.find(name)
}

/// So many times an attribute of a view.
pub fn share_at(by: Frac, view: ViewId, word: AttrWord) -> Share
    requires { view.0 < ID_LIMIT }
    ensures share { (v : ℕ) → share_fraction result v
        ≡ record { num = by.num *ℤ coefficient v (meaning.doubled view.0 word); den = by.den * 2 } }
    ensures halves { AreHalves result.of }
{
    Share {
        by,
        of: twice(view, word),
    }
}

// The place of the first attribute that isn't below this one.
fn place_of(attrs: &[u32], attr: u32) -> usize
    ensures within { result ≤ length attrs.now }
    ensures below { (k d : ℕ) → k < result → slice_index_or attrs.now k d < attr }
    ensures here { (d : ℕ) → result < length attrs.now → attr ≤ slice_index_or attrs.now result d }
{
    attrs.iter().position(|a| *a >= attr).unwrap_or(attrs.len())
}

fn stands_at(attrs: &[u32], place: usize, attr: u32) -> bool
    ensures yes { IsTrue result → (place < length attrs.now)
        × ((d : ℕ) → slice_index_or attrs.now place d ≡ attr) }
    ensures no { result ≡ false → (d : ℕ) → place < length attrs.now
        → slice_index_or attrs.now place d ≢ attr }
{
    place < attrs.len() && attrs[place] == attr
}

// Puts an attribute in its place among rising ones, unless it is there.
fn include(attrs: &mut Vec<u32>, attr: u32) -> Result<(), OutOfMemory>
    requires rising { AllPairs (λ a b. a < b) attrs.old.items }
    requires numbers { All IsNumber attrs.old.items }
    requires number { IsNumber attr }
    ensures rising { OnOk result (AllPairs (λ a b. a < b) attrs.new.items) }
    ensures numbers { OnOk result (All IsNumber attrs.new.items) }
    ensures off { OnOk result ((v : ℕ) → IsOff attrs.new.items v → IsOff attrs.old.items v × (attr ≢ v)) }
{
    let place = place_of(attrs, attr);
    if stands_at(attrs, place, attr) {
        return Ok(());
    }
    attrs.insert(place, attr)?;
    Ok(())
}

// Puts the attribute of a part among the others, unless the part is 0.
fn include_part(attrs: &mut Vec<u32>, part: Term) -> Result<(), OutOfMemory>
    requires rising { AllPairs (λ a b. a < b) attrs.old.items }
    requires numbers { All IsNumber attrs.old.items }
    requires number { IsNumber part.attr }
    ensures rising { OnOk result (AllPairs (λ a b. a < b) attrs.new.items) }
    ensures numbers { OnOk result (All IsNumber attrs.new.items) }
    ensures off { OnOk result ((v : ℕ) → IsOff attrs.new.items v
        → IsOff attrs.old.items v × ((part.attr ≡ v) → part.by ≡ pos 0)) }
{
    if part.by == 0 {
        return Ok(());
    }
    include(attrs, part.attr)
}

// Puts the attributes of a share among the others.
fn include_share(attrs: &mut Vec<u32>, share: &Share) -> Result<(), OutOfMemory>
    requires rising { AllPairs (λ a b. a < b) attrs.old.items }
    requires numbers { All IsNumber attrs.old.items }
    requires halves { AreHalves share.now.of }
    ensures rising { OnOk result (AllPairs (λ a b. a < b) attrs.new.items) }
    ensures numbers { OnOk result (All IsNumber attrs.new.items) }
    ensures off { OnOk result ((v : ℕ) → IsOff attrs.new.items v
        → IsOff attrs.old.items v × ((share_fraction share.now v).num ≡ pos 0)) }
{
    include_part(attrs, share.of.edge)?;
    include_part(attrs, share.of.size)?;
    Ok(())
}

// Puts the attributes of an addend among the others.
fn include_addend(attrs: &mut Vec<u32>, addend: &Addend<'_>) -> Result<(), OutOfMemory>
    requires kept { IsKept addend.now }
    requires rising { AllPairs (λ a b. a < b) attrs.old.items }
    requires numbers { All IsNumber attrs.old.items }
    ensures rising { OnOk result (AllPairs (λ a b. a < b) attrs.new.items) }
    ensures numbers { OnOk result (All IsNumber attrs.new.items) }
    ensures off { OnOk result ((v : ℕ) → IsOff attrs.new.items v
        → IsOff attrs.old.items v × (((addend_view addend.now).share v).num ≡ pos 0)) }
{
    if let Some(share) = addend.share() {
        include_share(attrs, &share)?;
    }
    Ok(())
}

/// The attributes of all addends, each once, by rising number.
pub fn attributes(alloc: Global, added: &[Addend<'_>]) -> Result<Vec<u32>, OutOfMemory>
    requires kept { All IsKept added.now }
    ensures rising { IfOk result (λ attrs. AllPairs (λ a b. a < b) attrs.items) }
    ensures numbers { IfOk result (λ attrs. All IsNumber attrs.items) }
    ensures off { IfOk result (λ attrs. (v : ℕ) → IsOff attrs.items v
        → All (λ a. ((addend_view a).share v).num ≡ pos 0) added.now) }
{
    let mut attrs = Vec::new(alloc);
    for addend in added {
        include_addend(&mut attrs, addend)?;
    }
    Ok(attrs)
}

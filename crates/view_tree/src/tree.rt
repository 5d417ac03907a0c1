// The live views.
ghost use Rattle.std.specs.Prelude.{◌≡◌, ◌≢◌, ◌≤◌, ◌<◌, ◌+◌, ◌==◌, ℕ, List, ◌∷◌, ◌++◌, None, false};
ghost use Rattle.std.specs.Prelude.{filter, find, not, position};
ghost use Rattle.std.specs.Prelude.{IfOk, IfSome, OnErr, OnOk, IfErr, IfNone, is_some, length, slice_get};
ghost use Rattle.std.specs.Option.{option_map, option_map_or, option_and_then};
ghost use Rattle.view_tree.specs.Plans.{IsGrownBy};
ghost use Rattle.view_tree.specs.Views.{LiveView, ViewTree, IsTree, IsAtDepth, HasParent};
ghost use Rattle.view_tree.specs.Views.{first_tree, view_of, view_named, with_view};
ghost use Rattle.view_tree.specs.Stops.{IsNewView, MayStop, is_full};
ghost use Rattle.view_tree.specs.declared.limits.TheConstants.{DEPTH_LIMIT, ID_LIMIT, VIEW_LIMIT};
ghost use Rattle.view_tree.specs.Drops.{AreGoing, goes, is_among, without};

use crate::limits::{DEPTH_LIMIT, ID_LIMIT, VIEW_LIMIT};
use crate::stops::ViewStop;
use crate::view::{View, ViewId};
use frac_core::OutOfMemory;
use name_tables::{LimitWord, NAME_LIMIT, NameMap};
use std::alloc::Global;
use std::marker::Model;

/// What is kept under a view's name.
#[derive(Clone, Copy)]
pub(crate) struct Node {
    id: ViewId,
    parent: Option<ViewId>,
    depth: u32,
}

// The place of the node of this number.
fn place_of_number(nodes: &[Node], id: u32) -> Option<usize>
    ensures { result ≡ position (λ node. node.id.0 == id) nodes.now }
{
    nodes.iter().position(|node| node.id.0 == id)
}

// The node of this number.
fn node_of(nodes: &[Node], id: u32) -> Option<Node>
    ensures { result ≡ find (λ node. node.id.0 == id) nodes.now }
{
    let place = place_of_number(nodes, id)?;
    Some(nodes[place])
}

// Whether the view is the root, or its parent is one of these.
fn goes(root: u32, gone: &[u32], id: ViewId, parent: Option<ViewId>) -> bool
    ensures { (name : List ℕ) → result
        ≡ goes root gone.now (record { id = id.0; name = name; parent = option_map (λ p. p.0) parent }) }
{
    if id.0 == root {
        return true;
    }
    match parent {
        Some(above) => gone.contains(&above.0),
        None => false,
    }
}

// Whether the node at a place has one of these numbers.
fn is_gone(table: &NameMap<Node>, place: usize, gone: &[u32]) -> bool
    ensures { result ≡ option_map_or (λ e. is_among gone.now e.1.id.0) (slice_get table.now place) false }
{
    match table.at(place) {
        Some(entry) => gone.contains(&entry.value.id.0),
        None => false,
    }
}

// Takes out the nodes of these numbers, the last first.
fn drop_nodes(table: &mut NameMap<Node>, gone: &[u32])
    ensures { table.new ≡ filter (λ e. not (is_among gone.now e.1.id.0)) table.old }
{
    let mut place = table.len();
    while place > 0 {
        place -= 1;
        if is_gone(table, place, gone) {
            table.remove(place);
        }
    }
}

/// The live views in order of creation, the number that the next one takes, and how many may be live. The
/// first is the window.
#[derive(Drop)]
pub struct Tree {
    alloc: Global,
    table: NameMap<Node>,
    next: u32,
    most: u32,
}

impl Model for Tree {
    ghost use Rattle.view_tree.specs.Views.{ViewTree};
    ghost use Rattle.view_tree.specs.Nodes.{kept_tree, AreKept};

    ghost Value = { ViewTree };

    ghost view = { λ t. kept_tree t.table t.next t.most };

    ghost invariant = { λ t. AreKept t.table t.next t.most };
}

impl Tree {
    /// The window alone, where [`VIEW_LIMIT`] views may be live.
    pub fn new(alloc: Global) -> Result<Tree, OutOfMemory>
        ensures { IfOk result (λ tree. tree ≡ first_tree VIEW_LIMIT) }
    {
        Tree::with(alloc, VIEW_LIMIT as u32)
    }

    /// The window alone, where so many views may be live, it among them.
    pub fn with(alloc: Global, most: u32) -> Result<Tree, OutOfMemory>
        requires some { 0 < most }
        requires few { most ≤ VIEW_LIMIT }
        ensures { IfOk result (λ tree. tree ≡ first_tree most) }
    {
        let mut table = NameMap::new(alloc);
        let node = Node {
            id: ViewId(0),
            parent: None,
            depth: 1,
        };
        table.add("window", node)?;
        Ok(Tree {
            alloc,
            table,
            next: 1,
            most,
        })
    }

    /// How many views may be live.
    pub(crate) fn most(&self) -> usize
        ensures most { result ≡ self.now.most }
        ensures few { self.now.most ≤ VIEW_LIMIT }
        ensures within { length self.now.views ≤ self.now.most }
    {
        self.most as usize
    }

    /// How many views are live.
    pub fn len(&self) -> usize
        ensures len { result ≡ length self.now.views }
        ensures tree { IsTree self.now }
    {
        self.table.len()
    }

    /// The view of a name.
    pub fn find(&self, name: &str) -> Option<ViewId>
        ensures { option_map (λ id. id.0) result ≡ option_map (λ v.
            v.id) (view_named self.now.views name.now) }
    {
        let node = self.table.get(name)?;
        Some(node.id)
    }

    /// Where the tree takes its memory.
    pub(crate) fn allocator(&self) -> Global {
        self.alloc
    }

    /// The number that the next view takes.
    pub(crate) fn next_number(&self) -> u32
        ensures next { result ≡ self.now.next }
        ensures within { self.now.next ≤ ID_LIMIT }
    {
        self.next
    }

    /// The depth of a live view, the window being at 1. There is none where the view isn't live.
    pub(crate) fn depth(&self, id: ViewId) -> Option<u32>
        ensures depth { IfSome result (IsAtDepth self.now.views id.0) }
        ensures dead { IfNone result (view_of self.now.views id.0 ≡ None) }
    {
        let node = self.node(id)?;
        Some(node.depth)
    }

    // What is kept of a view, if it is live.
    fn node(&self, id: ViewId) -> Option<Node>
        ensures live { IfSome result (λ n. HasParent self.now.views id.0 (option_map (λ p. p.0) n.parent)) }
        ensures depth { IfSome result (λ n. IsAtDepth self.now.views id.0 n.depth) }
        ensures dead { IfNone result (view_of self.now.views id.0 ≡ None) }
    {
        node_of(self.table.values(), id.0)
    }

    /// Whether a live view has the name.
    pub(crate) fn has_name(&self, name: &str) -> bool
        ensures { result ≡ is_some (view_named self.now.views name.now) }
    {
        self.table.get(name).is_some()
    }

    /// The parent of a view: none for the window, and none where the view isn't live.
    pub fn parent(&self, id: ViewId) -> Option<ViewId>
        ensures { option_map (λ p. p.0) result ≡ option_and_then (λ v.
            v.parent) (view_of self.now.views id.0) }
    {
        let node = self.node(id)?;
        node.parent
    }

    /// The view at a place, counted from 0 in order of creation. There is none exactly past the end.
    pub fn at(&self, place: usize) -> Option<View<'_>>
        ensures { option_map (λ v. record {
          id = v.id.0;
          name = v.name.now;
          parent = option_map (λ p.
              p.0) v.parent;
        }) result ≡ slice_get self.now.views place }
    {
        let entry = self.table.at(place)?;
        Some(View {
            id: entry.value.id,
            name: entry.name,
            parent: entry.value.parent,
        })
    }

    // The depth of a new view below this parent, or the first cause that there is against it.
    fn depth_below(&self, name: &str, parent: ViewId) -> Result<u32, ViewStop>
        ensures depth { IfOk result (λ depth. (above : ℕ) × IsAtDepth self.now.views parent.0 above
            × (depth ≡ above + 1)) }
        ensures low { IfOk result (λ depth. depth ≤ DEPTH_LIMIT) }
        ensures new { OnOk result (IsNewView self.now name.now parent.0) }
        ensures refused { IfErr result (MayStop self.now name.now parent.0) }
    {
        let Some(above) = self.node(parent) else {
            return Err(ViewStop::Unknown);
        };
        if self.has_name(name) {
            return Err(ViewStop::Taken);
        }
        if name.len() > NAME_LIMIT {
            return Err(ViewStop::Limit(LimitWord::Name));
        }
        if self.is_full() {
            return Err(ViewStop::Limit(LimitWord::Views));
        }
        if above.depth >= DEPTH_LIMIT {
            return Err(ViewStop::Limit(LimitWord::Depth));
        }
        Ok(above.depth + 1)
    }

    // Whether there are as many views as there may be, or no number is left.
    fn is_full(&self) -> bool
        ensures { result ≡ is_full self.now }
    {
        self.table.len() >= self.most as usize || self.next >= ID_LIMIT
    }

    /// Adds a view below a parent, and answers its number, which is the next one.
    ///
    /// `Unknown` where the parent isn't live, otherwise `Taken` where a live view has the name, otherwise the
    /// first limit that would be passed: `Name` past [`NAME_LIMIT`] bytes, `Views` where as many views are
    /// live as may be, or at the number [`ID_LIMIT`], `Depth` below a parent at [`DEPTH_LIMIT`]. After a
    /// refusal all is as before.
    pub fn add(&mut self, name: &str, parent: ViewId) -> Result<ViewId, ViewStop>
        ensures id { IfOk result (λ id. id.0 ≡ self.old.next) }
        ensures new { OnOk result (IsNewView self.old name.now parent.0) }
        ensures added { OnOk result (self.new ≡ with_view self.old name.now parent.0) }
        ensures refused { IfErr result (MayStop self.old name.now parent.0) }
        ensures unchanged { OnErr result (self.new ≡ self.old) }
    {
        let depth = self.depth_below(name, parent)?;
        let id = ViewId(self.next);
        let node = Node {
            id,
            parent: Some(parent),
            depth,
        };
        self.table.add(name, node)?;
        self.next += 1;
        Ok(id)
    }

    /// Takes out the views that were added last, so many as `count`. It takes no memory, and their numbers
    /// are free again.
    pub fn take_back_views(&mut self, count: usize)
        requires { IsGrownBy self.old count }
        ensures { (before : ViewTree) (views : List LiveView) → length views ≡ count
            → self.old ≡ record before { views = before.views ++ views; next = before.next + count }
            → self.new ≡ before }
    {
        self.table.truncate(self.table.len() - count);
        self.next -= count as u32;
    }

    /// The numbers of a view and of all below it, in order of creation. There is none where the view isn't
    /// live.
    pub fn subtree(&self, root: ViewId) -> Result<Vec<u32>, OutOfMemory>
        ensures going { IfOk result (λ gone. AreGoing self.now.views root.0 gone.items) }
        ensures few { IfOk result (λ gone. length gone.items ≤ length self.now.views) }
    {
        let mut gone = Vec::new(self.alloc);
        for place in 0..self.len() {
            let Some(view) = self.at(place) else {
                unreachable!()
            };
            if goes(root.0, &gone, view.id, view.parent) {
                gone.push(view.id.0)?;
            }
        }
        Ok(gone)
    }

    /// Takes out the views of these numbers, which are a view and all below it. It takes no memory, and the
    /// numbers aren't used again.
    pub fn drop_views(&mut self, gone: &[u32])
        requires { (root : ℕ) × (root ≢ 0) × AreGoing self.old.views root gone.now }
        ensures { self.new ≡ without self.old gone.now }
    {
        drop_nodes(&mut self.table, gone);
    }

    /// The same tree.
    pub fn copy(&self) -> Result<Tree, OutOfMemory>
        ensures { IfOk result (λ same. same ≡ self.now) }
    {
        Ok(Tree {
            alloc: self.alloc,
            table: self.table.copy()?,
            next: self.next,
            most: self.most,
        })
    }
}

// The corners of a path by numbers: two have the same number exactly if the same marks are inside.
ghost use Rattle.std.specs.Prelude.{◌≡◌, ◌<◌, ◌*◌, ◌≤◌, ◌+◌, ℕ, length, List, Option, All, IfOk, set};
ghost use Rattle.problem_core.specs.declared.parts.Side.{Side};
ghost use Rattle.path_lines.specs.Numbering.{AreCornerNumbers, AreNumbered, Extends, HasNumber};
ghost use Rattle.path_lines.specs.Numbering.{AreNodes, IsNode, IsTree, entry, number_of};
ghost use Rattle.path_lines.specs.Sides.{IsWithin, moved_sides};

use frac_core::OutOfMemory;
use path_lines::Step;
use problem_core::Side;
use std::alloc::Global;
use std::collections::BTreeMap;

// The pairs of numbers so far, each with a number of its own.
type Pairs = BTreeMap<(usize, usize), usize>;

// A tree over the lines. Of so many, the node `count + k` has the number of the line k's inside mark, and
// each node below `count` has the number of the pair of the nodes `2 * node` and `2 * node + 1`. So the node
// 1 has the corner's number.
#[derive(Drop)]
struct Tree {
    pairs: Pairs,
    nodes: Vec<usize>,
}

// The number of a line's mark, or of none.
fn number_of_side(side: Option<Side>) -> usize
    ensures { result ≡ number_of side }
{
    match side {
        None => 0,
        Some(Side::Under) => 1,
        Some(Side::Over) => 2,
    }
}

// The number of a pair, a new one if it has none.
fn numbered(pairs: &mut Pairs, pair: (usize, usize)) -> Result<usize, OutOfMemory>
    requires { AreNumbered pairs.old }
    ensures numbered { IfOk result (λ _. AreNumbered pairs.new) }
    ensures extends { IfOk result (λ _. Extends pairs.old pairs.new) }
    ensures number { IfOk result (HasNumber pairs.new pair) }
{
    if let Some(number) = pairs.get(&pair) {
        return Ok(*number);
    }
    let number = pairs.len();
    pairs.insert(pair, number)?;
    Ok(number)
}

impl Tree {
    // Gives a node the number of its pair.
    fn renumber(&mut self, node: usize) -> Result<(), OutOfMemory>
        requires numbered { AreNumbered self.old.pairs }
        requires above { 0 < node }
        requires within { 2 * node + 1 < length self.old.nodes.items }
        ensures numbered { IfOk result (λ _. AreNumbered self.new.pairs) }
        ensures extends { IfOk result (λ _. Extends self.old.pairs self.new.pairs) }
        ensures others { IfOk result
            (λ _. self.new.nodes.items ≡ set self.old.nodes.items node (entry self.new.nodes.items node)) }
        ensures node { IfOk result (λ _. IsNode self.new.pairs self.new.nodes.items node) }
    {
        let pair = (self.nodes[2 * node], self.nodes[2 * node + 1]);
        self.nodes[node] = numbered(&mut self.pairs, pair)?;
        Ok(())
    }

    // Puts another mark in at the line k, or none. There are so many lines.
    fn put(&mut self, count: usize, k: usize, side: Option<Side>) -> Result<(), OutOfMemory>
        requires numbered { AreNumbered self.old.pairs }
        requires count { length self.old.nodes.items ≡ 2 * count }
        requires k { k < count }
        ensures numbered { IfOk result (λ _. AreNumbered self.new.pairs) }
        ensures extends { IfOk result (λ _. Extends self.old.pairs self.new.pairs) }
        ensures count { IfOk result (λ _. length self.new.nodes.items ≡ 2 * count) }
        ensures tree { IfOk result (λ _. (sides : List (Option Side)) → length sides ≡ count
            → IsTree self.old.pairs self.old.nodes.items sides
            → IsTree self.new.pairs self.new.nodes.items (set sides k side)) }
    {
        self.nodes[count + k] = number_of_side(side);
        let mut node = (count + k) / 2;
        while node > 0 {
            self.renumber(node)?;
            node /= 2;
        }
        Ok(())
    }

    fn exchange(&mut self, count: usize, step: Step) -> Result<(), OutOfMemory>
        requires numbered { AreNumbered self.old.pairs }
        requires count { length self.old.nodes.items ≡ 2 * count }
        requires step { IsWithin count step }
        ensures numbered { IfOk result (λ _. AreNumbered self.new.pairs) }
        ensures extends { IfOk result (λ _. Extends self.old.pairs self.new.pairs) }
        ensures count { IfOk result (λ _. length self.new.nodes.items ≡ 2 * count) }
        ensures tree { IfOk result (λ _. (sides : List (Option Side)) → length sides ≡ count
            → IsTree self.old.pairs self.old.nodes.items sides
            → IsTree self.new.pairs self.new.nodes.items (moved_sides step sides)) }
    {
        self.put(count, step.leave.at, None)?;
        self.put(count, step.enter.at, Some(step.enter.side))
    }
}

// The numbers of the lines' marks after as many zeros.
fn leaves(alloc: Global, sides: &[Option<Side>]) -> Result<Vec<usize>, OutOfMemory>
    ensures count { IfOk result (λ nodes. length nodes.items ≡ 2 * length sides.now) }
    ensures leaves { IfOk result (λ nodes. AreNodes nodes.items sides.now) }
{
    let mut nodes = Vec::new(alloc);
    nodes.resize(sides.len(), 0)?;
    for side in sides {
        nodes.push(number_of_side(*side))?;
    }
    Ok(nodes)
}

// The tree of a corner.
fn tree_of(alloc: Global, sides: &[Option<Side>]) -> Result<Tree, OutOfMemory>
    ensures numbered { IfOk result (λ tree. AreNumbered tree.pairs) }
    ensures tree { IfOk result (λ tree. IsTree tree.pairs tree.nodes.items sides.now) }
{
    let nodes = leaves(alloc, sides)?;
    let pairs = BTreeMap::new(alloc);
    let mut tree = Tree { pairs, nodes };
    let mut node = sides.len();
    while node > 1 {
        node -= 1;
        tree.renumber(node)?;
    }
    Ok(tree)
}

/// The numbers of the corners from the first on, if each line has a place and there is at least one line.
pub(crate) fn corner_numbers(
    alloc: Global,
    first: &[Option<Side>],
    steps: &[Step],
) -> Result<Vec<usize>, OutOfMemory>
    requires some { 0 < length first.now }
    requires within { All (IsWithin (length first.now)) steps.now }
    ensures { IfOk result (λ numbers. AreCornerNumbers first.now steps.now numbers.items) }
{
    let mut tree = tree_of(alloc, first)?;
    let mut numbers = Vec::new(alloc);
    numbers.push(tree.nodes[1])?;
    for step in steps {
        tree.exchange(first.len(), *step)?;
        numbers.push(tree.nodes[1])?;
    }
    Ok(numbers)
}

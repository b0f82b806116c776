//! The tree that finds the least of many numbers.
ghost use Rattle.std.specs.Prelude.{◌≡◌, ◌+◌, ◌*◌, ◌<◌, ◌≤◌, ◌++◌, IfOk, OnOk};
ghost use Rattle.indexmap.specs.IndexMap.{index_map_len};
ghost use Rattle.expiry_clock.specs.Dues.{due_rows};
ghost use Rattle.expiry_clock.specs.Tree.{IsTree, Indexes, IsPlanted, IsGrown, WritesLeaf, rows_below, span};

use indexmap::IndexMap;
use std::alloc::Global;
use std::hash::RandomState;
use upi_base::{NoMemory, TxnId};

/// What a leaf has that stands for no transaction: no due moment is after it.
pub const NEVER: u64 = 18_446_744_073_709_551_615;

// The most leaves that a tree may have. As many take more memory than there is.
const MOST_LEAVES: usize = 1_152_921_504_606_846_976;

/// Transactions with their due moments, in the order of their leaves.
pub(crate) type Rows = IndexMap<TxnId, u64, RandomState>;

/// A tree over due moments: the leaves are the second half of the cells, and each node before them
/// has the lesser of the two cells below it.
#[derive(Drop)]
pub(crate) struct Tree {
    pub(crate) cells: Vec<u64>,
    pub(crate) leaves: usize,
    pub(crate) height: u64,
}

impl Tree {
    /// Writes a leaf, and then each node above it.
    pub(crate) fn write(&mut self, at: usize, value: u64)
        requires tree { IsTree self.old.leaves self.old.cells.items }
        requires within { at < self.old.leaves }
        ensures writes { WritesLeaf self.old.leaves at value self.old.cells.items self.new.cells.items }
        ensures leaves { self.new.leaves ≡ self.old.leaves }
        ensures height { self.new.height ≡ self.old.height }
    {
        write_leaf(&mut self.cells, self.leaves, at, value);
    }
}

// Writes a leaf, and then each node above it.
fn write_leaf(cells: &mut [u64], leaves: usize, at: usize, value: u64)
    requires tree { IsTree leaves cells.old }
    requires within { at < leaves }
    ensures { WritesLeaf leaves at value cells.old cells.new }
{
    cells[leaves + at] = value;
    let mut node = (leaves + at) / 2;
    'above: while node > 0 {
        cells[node] = cells[2 * node].min(cells[2 * node + 1]);
        node /= 2;
    }
}

// A tree with as many leaves, and no due moment. It fails only for want of memory.
fn bare(alloc: Global, needed: usize) -> Result<Tree, NoMemory>
    ensures planted { IfOk result (λ t. IsPlanted t.leaves t.height t.cells.items) }
    ensures room { IfOk result (λ t. needed ≤ t.leaves) }
{
    let mut leaves = 1;
    let mut height = 0;
    'doubling: while leaves < needed {
        if leaves >= MOST_LEAVES {
            return Err(NoMemory);
        }
        leaves *= 2;
        height += 1;
    }
    let cells = vec![in alloc; NEVER; 2 * leaves]?;
    Ok(Tree {
        cells,
        leaves,
        height,
    })
}

/// The tree over these rows, with at least as many leaves. It fails only for want of memory.
pub(crate) fn plant(alloc: Global, rows: &Rows, needed: usize) -> Result<Tree, NoMemory>
    requires { index_map_len rows.now ≤ needed }
    ensures grown { IfOk result (λ t. IsGrown t.leaves t.height t.cells.items rows.now.entries) }
    ensures room { IfOk result (λ t. needed ≤ t.leaves) }
{
    let mut tree = bare(alloc, needed)?;
    'rows: for at in 0..rows.len() {
        let (_txn, due) = rows.get_index(at).unwrap();
        tree.write(at, *due);
    }
    Ok(tree)
}

/// Adds what is due at a moment of the rows below a node, in the order of the leaves. It looks at no
/// node below one at which nothing is due.
pub(crate) fn collect(
    rows: &Rows,
    tree: &Tree,
    node: usize,
    height: u64,
    now: u64,
    found: &mut Vec<(u64, TxnId)>,
) -> Result<(), NoMemory>
    requires indexes { Indexes tree.now.leaves tree.now.cells.items rows.now.entries }
    requires node { 0 < node }
    requires first { tree.now.leaves ≤ node * span height }
    requires last { (node + 1) * span height ≤ tree.now.leaves + tree.now.leaves }
    ensures { OnOk result (found.new.items ≡ found.old.items
        ++ due_rows now (rows_below tree.now.leaves node height rows.now.entries)) }
{
    if tree.cells[node] > now {
        return Ok(());
    }
    if height == 0 {
        if let Some((txn, due)) = rows.get_index(node - tree.leaves) {
            found.push((*due, txn.copy()))?;
        }
        return Ok(());
    }
    collect(rows, tree, 2 * node, height - 1, now, found)?;
    collect(rows, tree, 2 * node + 1, height - 1, now, found)?;
    Ok(())
}

//! Partitions of states, which are refined by sets of states: of each block the states that are in the set become a block of their own
//! (Paige and Tarjan, 1987). A refinement takes time linear in its set.

ghost use Rattle.std.specs.Prelude.{◌≡◌, ◌⊎◌, ◌<◌, All, IfOk, OnOk, OnErr, length};
ghost use Rattle.abstraction.specs.Partitions.{AreNumbers, AreBlocks, IsRefined, IsKnownMove, IsNewMove, IsNumbering};

use crate::class_numbers::first_states;
use std::alloc::{AllocError, Global};
use std::marker::Model;

/// A partition of states into blocks. Contracts see the number of the block of each state.
#[derive(Drop)]
pub struct Partition {
    blocks: Vec<usize>,
    /// For each block the one into which some of its states were moved last.
    moved: Vec<usize>,
}

impl Model for Partition {
    ghost use Rattle.std.specs.Prelude.{ℕ, List};
    ghost use Rattle.abstraction.specs.Partitions.{AreBlocks};

    ghost Value = { List ℕ };

    ghost view = { λ p. p.blocks.items };

    ghost invariant = { λ p. AreBlocks p.blocks.items p.moved.items };
}

impl Partition {
    /// The partition with a block for each class. There is one class for each state, a number below that of the states. `AllocError`
    /// where memory runs out.
    pub fn new(alloc: Global, classes: &[usize]) -> Result<Partition, AllocError>
        requires { AreNumbers (length classes.now) classes.now }
        ensures { IfOk result (λ partition. partition ≡ classes.now) }
    {
        Ok(Partition {
            blocks: Vec::from_slice(alloc, classes)?,
            moved: vec![in alloc; 0; classes.len()]?,
        })
    }

    /// Moves the states of the set into blocks of their own, which they share where they shared one before. `AllocError` where memory
    /// runs out.
    pub fn refine(&mut self, set: &[usize]) -> Result<(), AllocError>
        requires { All (λ state. state < length self.old) set.now }
        ensures { OnOk result (IsRefined set.now self.old self.new) }
    {
        move_states(&mut self.blocks, &mut self.moved, set)
    }

    /// For each state the first state of its block. `AllocError` where memory runs out.
    pub fn classes(&self, alloc: Global) -> Result<Vec<usize>, AllocError>
        ensures { IfOk result (λ classes. IsNumbering self.now classes.items) }
    {
        first_states(alloc, &self.blocks)
    }
}

/// Moves the states of the set into blocks of their own.
fn move_states(
    blocks: &mut Vec<usize>,
    moved: &mut Vec<usize>,
    set: &[usize],
) -> Result<(), AllocError>
    requires set { All (λ state. state < length blocks.old.items) set.now }
    requires before { AreBlocks blocks.old.items moved.old.items }
    ensures blocks { AreBlocks blocks.new.items moved.new.items }
    ensures refined { OnOk result (IsRefined set.now blocks.old.items blocks.new.items) }
{
    let first_new = moved.len();
    'states: for &state in set {
        let block = blocks[state];
        if block < first_new {
            blocks[state] = block_after(moved, block, first_new)?;
        }
    }
    Ok(())
}

/// The block into which states of the block are moved. It is a new one where none were moved to a block from `first_new` on.
fn block_after(moved: &mut Vec<usize>, block: usize, first_new: usize) -> Result<usize, AllocError>
    requires { block < length moved.old.items }
    ensures ok { IfOk result (λ to. IsKnownMove moved.old.items moved.new.items block first_new to
        ⊎ IsNewMove moved.old.items moved.new.items block first_new to) }
    ensures err { OnErr result (moved.new.items ≡ moved.old.items) }
{
    if moved[block] >= first_new {
        return Ok(moved[block]);
    }
    let to = moved.len();
    moved.push(0)?;
    moved[block] = to;
    Ok(to)
}

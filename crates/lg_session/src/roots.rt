ghost use Rattle.std.specs.Prelude.{◌≡◌, ◌≢◌, ℕ, None, Some, IfOk, OnErr, IsSome};
ghost use Rattle.lg_shape.specs.Shapes.{whole};
ghost use Rattle.lg_tile.specs.Tiles.{dtype_of, numbers, rect_of};
ghost use Rattle.lg_xform.specs.Chains.{layout_of, root_of as root_shape, shape_of};
ghost use Rattle.lg_operations.specs.Views.{view_of};
ghost use Rattle.lg_operations.specs.Operations.{IsWhole};
ghost use Rattle.lg_session.specs.Puts.{Puts, Writes};
ghost use Rattle.lg_session.specs.Stored.{IsHeld};
ghost use Rattle.lg_session.specs.Worlds.{NoRepeat};

use lg_copy::scatter;
use lg_operations::is_whole;
use lg_store::View;
use lg_tile::AnyTile;
use lg_xform::Chain;
use std::alloc::{AllocError, Global};
use std::mem::replace;

/// The roots that there are: whole typed elements, by number from 0 on. No number is given twice.
#[derive(Drop)]
pub(crate) struct Roots {
    tiles: Vec<Option<WholeTile>>,

    // How much memory their elements take.
    bytes: u64,
}

// A tile over all indices of a shape.
#[derive(Drop)]
struct WholeTile {
    tile: AnyTile,
    ghost whole: { IsWhole tile },
}

impl Roots {
    ghost use Rattle.lg_session.specs.Roots.{contents, root_of};

    /// No root.
    pub(crate) fn new(alloc: Global) -> Roots
        ensures { (root : ℕ) → contents result root ≡ None }
    {
        Roots {
            tiles: Vec::new(alloc),
            bytes: 0,
        }
    }

    /// One more root, and its number.
    ///
    /// # Errors
    /// `AllocError`. There are then the roots that there were.
    pub(crate) fn add(&mut self, tile: AnyTile) -> Result<u64, AllocError>
        requires { IsWhole tile }
        ensures free { IfOk result (λ root. contents self.old root ≡ None) }
        ensures held { IfOk result (λ root. contents self.new root ≡ Some (root_of tile)) }
        ensures others { IfOk result (λ root. (other : ℕ) → root ≢ other
            → contents self.new other ≡ contents self.old other) }
        ensures same { OnErr result ((root : ℕ)
            → contents self.new root ≡ contents self.old root) }
    {
        let root = self.tiles.len() as u64;
        let bytes = tile.bytes();
        self.tiles.push(Some(WholeTile { tile }))?;
        self.bytes = self.bytes.saturating_add(bytes);
        Ok(root)
    }

    /// How much memory their elements take.
    pub(crate) fn bytes(&self) -> u64 {
        self.bytes
    }

    /// The elements of a root.
    pub(crate) fn tile(&self, root: u64) -> &AnyTile
        requires { IsSome (contents self.now root) }
        ensures value { contents self.now root ≡ Some (root_of result.now) }
        ensures whole { IsWhole result.now }
    {
        let whole = self.tiles[root as usize].as_ref().unwrap();
        &whole.tile
    }

    /// Writes a tile through a view of a root: each element to the place that the view has at its
    /// index. All other elements stay. It takes no memory, and a tile is left whose memory is not
    /// needed any more.
    pub(crate) fn write(&mut self, target: &View, tile: AnyTile) -> AnyTile
        requires held { IsHeld (contents self.old) target.now }
        requires dtype { dtype_of tile ≡ target.now.dtype }
        requires rect { rect_of tile ≡ whole (shape_of target.now.chain) }
        requires once { NoRepeat (layout_of target.now.chain).places }
        ensures { Writes (contents self.old) (contents self.new) (view_of target.now) (numbers tile) }
    {
        let root = self.tiles[target.root as usize].as_mut().unwrap();
        root.write(&target.chain, tile)
    }

    /// Takes a root away, and gives its elements. Its number is not given again.
    pub(crate) fn forget(&mut self, root: u64) -> Option<AnyTile>
        ensures gone { contents self.new root ≡ None }
        ensures others { (other : ℕ) → root ≢ other
            → contents self.new other ≡ contents self.old other }
    {
        let whole = self.tiles.get_mut(root as usize)?.take()?;
        self.bytes = self.bytes.saturating_sub(whole.tile.bytes());
        Some(whole.tile)
    }
}

impl WholeTile {
    // Writes a tile through a view of this one. The tile itself is kept where the view is the whole.
    fn write(&mut self, chain: &Chain, tile: AnyTile) -> AnyTile
        requires dtype { dtype_of tile ≡ dtype_of self.old.tile }
        requires rect { rect_of tile ≡ whole (shape_of chain.now) }
        requires root { rect_of self.old.tile ≡ whole (root_shape chain.now) }
        requires once { NoRepeat (layout_of chain.now).places }
        ensures dtype { dtype_of self.new.tile ≡ dtype_of self.old.tile }
        ensures rect { rect_of self.new.tile ≡ rect_of self.old.tile }
        ensures puts { Puts (layout_of chain.now).places (numbers tile) (numbers self.old.tile)
            (numbers self.new.tile) }
    {
        // What is known of every rectangle, its limits, is told with its ranges, and what is known of
        // every chain with its root.
        let _limits = self.tile.rect().ranges();
        let _root = chain.root();
        if is_whole(chain) {
            return replace(&mut self.tile, tile);
        }
        scatter(&tile, chain, &mut self.tile);
        tile
    }
}

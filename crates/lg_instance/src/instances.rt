ghost use Rattle.std.specs.Prelude.{◌≡◌, ◌≢◌, ◌≤◌, ◌↔◌, IsTrue, ℕ, List, None, Some, Contains, IfOk, IfSome, OnErr};
ghost use Rattle.lg_space.specs.Rectangle.{IsIn};
ghost use Rattle.lg_shape.specs.Shapes.{size_of, whole};
ghost use Rattle.lg_space.specs.Stored.{MAX_VOLUME};
ghost use Rattle.lg_tile.specs.Sections.{Covers};
ghost use Rattle.lg_tile.specs.Tiles.{dtype_of, number_at, rect_of};
ghost use Rattle.lg_xform.specs.Chains.{mapped, shape_of};
ghost use Rattle.lg_copy.specs.Leading.{RepeatsNone};
ghost use Rattle.lg_instance.specs.Contents.{IsHeld, IsStored, IsWhole, as_root, shown, zeros};

use lg_copy::{gather_from, scatter};
use lg_elem::DType;
use lg_outside::NoMemory;
use lg_shape::Shape;
use lg_space::AnyRect;
use lg_store::View;
use lg_tile::AnyTile;
use std::alloc::Global;

/// The memory of the roots, by number. No number is given twice. Contracts see the root with each
/// number, or that there is none.
#[derive(Drop)]
pub struct Instances {
    tiles: Vec<Option<WholeTile>>,
}

// A tile over all indices of a shape.
#[derive(Drop)]
struct WholeTile {
    tile: AnyTile,
    ghost whole: { IsWhole tile },
}

impl Instances {
    ghost use Rattle.lg_instance.specs.Kept.{contents};

    /// No root. It takes no memory.
    pub fn new(alloc: Global) -> Instances
        ensures { (root : ℕ) → contents result root ≡ None }
    {
        Instances {
            tiles: Vec::new(alloc),
        }
    }

    /// One more root of this type and shape, whose elements are all 0, and its number.
    ///
    /// # Errors
    /// `NoMemory`. There are then the roots that there were.
    pub fn add(&mut self, alloc: Global, dtype: DType, shape: &Shape) -> Result<u64, NoMemory>
        requires { size_of shape.now ≤ MAX_VOLUME }
        ensures free { IfOk result (λ root. contents self.old root ≡ None) }
        ensures zeros { IfOk result (λ root.
            contents self.new root ≡ Some (zeros dtype shape.now)) }
        ensures others { IfOk result (λ root. (other : ℕ) → root ≢ other
            → contents self.new other ≡ contents self.old other) }
        ensures same { OnErr result ((root : ℕ)
            → contents self.new root ≡ contents self.old root) }
    {
        self.hold(AnyTile::filled(alloc, dtype, &shape.whole(), 0)?)
    }

    /// One more root, which is a tile over all indices of a shape, and its number. The elements are
    /// not copied.
    ///
    /// # Errors
    /// `NoMemory`. There are then the roots that there were.
    pub fn hold(&mut self, tile: AnyTile) -> Result<u64, NoMemory>
        requires { IsWhole tile }
        ensures free { IfOk result (λ root. contents self.old root ≡ None) }
        ensures held { IfOk result (λ root. contents self.new root ≡ Some (as_root tile)) }
        ensures others { IfOk result (λ root. (other : ℕ) → root ≢ other
            → contents self.new other ≡ contents self.old other) }
        ensures same { OnErr result ((root : ℕ)
            → contents self.new root ≡ contents self.old root) }
    {
        let root = self.tiles.len() as u64;
        self.tiles.push(Some(WholeTile { tile }))?;
        Ok(root)
    }

    /// The elements that a view of a root shows at the indices of a rectangle, as a tile of that
    /// rectangle.
    ///
    /// # Errors
    /// `NoMemory`.
    pub fn read(&self, alloc: Global, view: &View, rect: &AnyRect) -> Result<AnyTile, NoMemory>
        requires held { IsHeld (contents self.now) view.now }
        requires within { Covers (whole (shape_of view.now.chain)) rect.now }
        ensures dtype { IfOk result (λ out. dtype_of out ≡ view.now.dtype) }
        ensures rect { IfOk result (λ out. rect_of out ≡ rect.now) }
        ensures numbers { IfOk result (λ out. (index : List ℕ) → IsIn rect.now index
            → number_at out index ≡ shown (contents self.now) view.now index) }
    {
        // That a view leads into its root is told with the root's shape.
        let _shape = view.chain.root();
        let whole = self.tiles[view.root as usize].as_ref().unwrap();
        gather_from(alloc, &whole.tile, &view.chain, rect)
    }

    /// A root as one tile, if it can be lent so. Where it cannot, `read` gives a copy.
    pub fn borrow(&self, root: u64) -> Option<&AnyTile>
        ensures root { IfSome result (λ tile. contents self.now root ≡ Some (as_root tile.now)) }
        ensures whole { IfSome result (λ tile. IsWhole tile.now) }
    {
        let whole = self.tiles.get(root as usize)?.as_ref()?;
        Some(&whole.tile)
    }

    /// Writes the elements of a tile through a view of a root: each to where its index leads. All
    /// other elements stay. It takes no memory.
    pub fn store(&mut self, view: &View, tile: &AnyTile)
        requires held { IsHeld (contents self.old) view.now }
        requires dtype { dtype_of tile.now ≡ view.now.dtype }
        requires within { Covers (whole (shape_of view.now.chain)) (rect_of tile.now) }
        requires once { RepeatsNone (mapped view.now.chain) (rect_of tile.now) }
        ensures { IsStored view.now tile.now (contents self.old) (contents self.new) }
    {
        // That a view leads into its root is told with the root's shape.
        let _shape = view.chain.root();
        let whole = self.tiles[view.root as usize].as_mut().unwrap();
        scatter(tile, &view.chain, &mut whole.tile);
    }

    /// Takes a root away. Its number is not given again. It takes no memory.
    pub fn forget(&mut self, root: u64)
        ensures gone { contents self.new root ≡ None }
        ensures others { (other : ℕ) → root ≢ other
            → contents self.new other ≡ contents self.old other }
    {
        if let Some(slot) = self.tiles.get_mut(root as usize) {
            *slot = None;
        }
    }

    /// Takes all roots away but these. No number is given again. It takes no memory.
    pub fn keep(&mut self, roots: &[u64])
        ensures kept { (root : ℕ) → Contains roots.now root
            → contents self.new root ≡ contents self.old root }
        ensures gone { (root : ℕ) → ¬ Contains roots.now root → contents self.new root ≡ None }
    {
        for root in 0..self.tiles.len() as u64 {
            if !is_among(roots, root) {
                self.forget(root);
            }
        }
    }
}

// Whether a number is one of these.
fn is_among(roots: &[u64], root: u64) -> bool
    ensures { IsTrue result ↔ Contains roots.now root }
{
    roots.contains(&root)
}

ghost use Rattle.std.specs.Prelude.{◌≡◌, ◌<◌, ◌≤◌, ◌++◌, ◌∷◌, [], length, take, slice_get, Some, option_map, IfOk, OnOk, OnErr};

use lg_elem::DType;
use lg_outside::NoMemory;
use lg_shape::Shape;
use std::alloc::Global;
use std::marker::Model;

/// The types and the shapes of the roots, by number from 0 on. Contracts see the list of the pairs.
#[derive(Drop)]
pub struct Stores {
    roots: Vec<(DType, Shape)>,
}

impl Model for Stores {
    ghost use Rattle.std.specs.Prelude.{ℕ, List};
    ghost use Rattle.lg_elem.specs.declared.dtype.DType.{DType};

    ghost Value = { List (DType × List ℕ) };

    ghost view = { λ s. s.roots.items };
}

impl Stores {
    ghost use Rattle.std.specs.Prelude.{ℕ, List};
    ghost use Rattle.lg_elem.specs.declared.dtype.DType.{DType};

    /// No root.
    pub fn new(alloc: Global) -> Stores
        ensures { result ≡ [] }
    {
        Stores {
            roots: Vec::new(alloc),
        }
    }

    /// One more root, and its number, which is the next.
    ///
    /// # Errors
    /// `NoMemory`. There are then the roots that there were.
    pub fn add(&mut self, dtype: DType, shape: &Shape) -> Result<u64, NoMemory>
        ensures number { IfOk result (λ number. number ≡ length self.old) }
        ensures added { OnOk result (self.new ≡ self.old ++ (dtype, shape.now) ∷ []) }
        ensures unchanged { OnErr result (self.new ≡ self.old) }
    {
        let number = self.roots.len() as u64;
        self.roots.push((dtype, *shape))?;
        Ok(number)
    }

    /// How many roots there are.
    pub fn count(&self) -> u64
        ensures { result ≡ length self.now }
    {
        self.roots.len() as u64
    }

    /// The type of a root.
    pub fn dtype(&self, root: u64) -> DType
        requires { root < length self.now }
        ensures { option_map (λ (root : DType × List ℕ). root.0) (slice_get self.now root)
            ≡ Some result }
    {
        self.roots[root as usize].0
    }

    /// The shape of a root.
    pub fn shape(&self, root: u64) -> Shape
        requires { root < length self.now }
        ensures { option_map (λ (root : DType × List ℕ). root.1) (slice_get self.now root)
            ≡ Some result }
    {
        self.roots[root as usize].1
    }

    /// The first roots alone, so many of them.
    pub fn cut(&mut self, n: u64)
        requires { n ≤ length self.old }
        ensures { self.new ≡ take n self.old }
    {
        self.roots.truncate(n as usize);
    }
}

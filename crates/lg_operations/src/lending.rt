//! How the elements of operands are read, where an operation is over one shape.
ghost use Rattle.std.specs.Prelude.{◌≡◌, ℕ, ◌↔◌, List, Option, All, IsTrue, map, slice_index_or, pos};
ghost use Rattle.lg_elem.specs.Types.{IsNumber};
ghost use Rattle.lg_shape.specs.Shapes.{whole};
ghost use Rattle.lg_tile.specs.Tile.{tile_items};
ghost use Rattle.lg_tile.specs.Tiles.{dtype_of, numbers, rect_of};
ghost use Rattle.lg_xform.specs.Chains.{root_of, shape_of as shape_of_chain, layout_of};
ghost use Rattle.lg_meaning.specs.declared.fault.FaultKind.{FaultKind};
ghost use Rattle.lg_meaning.specs.Static.{shape_of};
ghost use Rattle.lg_operations.specs.Operations.{operand_static, operand_value, seen_value, value_with, extents_of, IsReady, IsWhole};
ghost use Rattle.lg_operations.specs.Lending.{Lends, IsNumberOf, SpreadsTo, spread_at, operand_in};

use crate::gathering::is_whole;
use crate::rules::shape_in;
use crate::values::Operand;
use crate::weak::number;
use lg_elem::Elem;
use lg_map::Operand as Read;
use lg_shape::Shape;
use lg_tile::{AnyTile, Tile, TileElem, each};
use lg_xform::Chain;

/// What an operation reads of an operand.
#[derive(Drop)]
pub enum Lent<'a> {
    /// The same number at each index.
    Number(i128),

    /// The elements of an array of the result's shape, as they lie.
    Tile(&'a AnyTile),

    /// The elements of a view of the result's shape, of a root with these elements.
    Viewed(&'a AnyTile, Chain),
}

/// What an operation reads of its operands, by their places. Where it has fewer, a number stands at
/// the other places.
#[derive(Drop)]
pub struct Inputs<'a> {
    pub first: Lent<'a>,
    pub second: Lent<'a>,
    pub third: Lent<'a>,
}

impl Lent<'_> {
    /// The operand at this place of an operation's inputs.
    pub fn operand(&self, k: u32) -> Read
        ensures { result ≡ operand_in self.now k }
    {
        match self {
            Lent::Number(x) => Read::Constant(*x),
            Lent::Tile(_) | Lent::Viewed(..) => Read::Input(k),
        }
    }

    // Whether it is read by the strides of a view.
    fn is_viewed(&self) -> bool {
        matches!(self, Lent::Viewed(..))
    }
}

impl Inputs<'_> {
    /// Whether one of them is read by the strides of a view.
    pub fn has_view(&self) -> bool {
        self.first.is_viewed() || self.second.is_viewed() || self.third.is_viewed()
    }
}

/// What an operation over this shape reads of an operand. No element is copied.
pub fn lend<'a>(a: &Operand<'a>, shape: &Shape) -> Lent<'a>
    requires ready { IsReady a.now }
    requires spreads { SpreadsTo (shape_of (operand_static a.now)) shape.now }
    ensures lends { Lends (operand_value a.now) shape.now result }
    ensures fits { (index : List ℕ)
        → IsNumberOf (operand_static a.now) (spread_at (operand_value a.now) index) }
{
    match a {
        Operand::Weak(w) => Lent::Number(number(*w)),
        Operand::Array { tile, .. } => lend_array(tile, shape),
        Operand::View { tile, chain, .. } => lend_view(tile, chain, shape),
    }
}

// An array is the view of a whole root.
fn lend_array<'a>(tile: &'a AnyTile, shape: &Shape) -> Lent<'a>
    requires whole { IsWhole tile.now }
    requires spreads { SpreadsTo (extents_of tile.now) shape.now }
    ensures lends { (fault : Option FaultKind)
        → Lends (value_with tile.now fault) shape.now result }
    ensures fits { (fault : Option FaultKind) (index : List ℕ)
        → IsNumber (dtype_of tile.now) (spread_at (value_with tile.now fault) index) }
{
    lend_view(tile, &Chain::whole(&shape_in(tile)), shape)
}

fn lend_view<'a>(tile: &'a AnyTile, chain: &Chain, shape: &Shape) -> Lent<'a>
    requires root { rect_of tile.now ≡ whole (root_of chain.now) }
    requires spreads { SpreadsTo (shape_of_chain chain.now) shape.now }
    ensures lends { Lends (seen_value tile.now chain.now) shape.now result }
    ensures fits { (index : List ℕ)
        → IsNumber (dtype_of tile.now) (spread_at (seen_value tile.now chain.now) index) }
{
    numbers_fit(tile);
    // What is known of every rectangle, its limits, is told with its ranges.
    let _limits = tile.rect().ranges();
    let own = chain.shape();
    if own.extents() == shape.extents() && is_whole(chain) {
        return Lent::Tile(tile);
    }
    if is_one(&own) {
        return Lent::Number(the_number(tile, chain));
    }
    Lent::Viewed(tile, chain.broadcast(shape))
}

/// Each element's number is one of its type. The loop reads each element, so that the check knows
/// it; it has no effect, and none is left of it in the compiled code.
pub fn numbers_fit(tile: &AnyTile)
    ensures { (place : ℕ)
        → IsNumber (dtype_of tile.now) (slice_index_or (numbers tile.now) place (pos 0)) }
{
    each!(tile, tile => items_fit(tile));
}

fn items_fit<T: TileElem>(tile: &Tile<T>)
    ensures { (place : ℕ)
        → IsNumber T.DTYPE (slice_index_or (map T.number (tile_items tile.now)) place (pos 0)) }
{
    for item in tile.items() {
        let _number = item.value();
    }
}

// Whether there is one element alone.
fn is_one(shape: &Shape) -> bool
    ensures { IsTrue result ↔ All (λ extent. extent ≡ 1) shape.now }
{
    shape.extents().iter().all(|extent| *extent == 1)
}

// The number of a view's only element.
fn the_number(tile: &AnyTile, chain: &Chain) -> i128
    requires root { rect_of tile.now ≡ whole (root_of chain.now) }
    requires one { All (λ extent. extent ≡ 1) (shape_of_chain chain.now) }
    ensures value { result
        ≡ slice_index_or (numbers tile.now) (slice_index_or (layout_of chain.now).places 0 0) (pos 0) }
    ensures fits { IsNumber (dtype_of tile.now) result }
{
    let first = chain.shape().whole().unravel(0);
    tile.at(&chain.map_point(&first))
}

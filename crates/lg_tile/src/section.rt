//! The part of a list of items over a rectangle, as a list that lies whole in memory.
ghost use Rattle.std.specs.Prelude.{◌≡◌, ◌≤◌, List, [], ◌∷◌, ◌++◌, length, IfOk, OnOk};
ghost use Rattle.lg_space.specs.Rectangle.{volume_of};
ghost use Rattle.lg_tile.specs.Blocks.{IsPart, section};
ghost use Rattle.lg_tile.specs.Sections.{Covers, IsSection, section_items};

use lg_outside::NoMemory;
use lg_space::AnyRect;
use std::alloc::{AllocError, Global};

/// The items of a part of a rectangle, in row-major order. They are lent as they lie where the part
/// is the whole.
#[derive(Drop)]
pub enum Section<'a, T> {
    Lent(&'a [T]),
    Copied(Vec<T>),
}

impl<T> Section<'_, T> {
    /// The items.
    pub fn items(&self) -> &[T]
        ensures { result.now ≡ section_items self.now }
    {
        match self {
            Section::Lent(items) => items,
            Section::Copied(items) => items,
        }
    }
}

/// The items that stand at the indices of a part, which are all indices of the whole. It takes
/// memory at most once, and none where the part is the whole. The only error is that there is none.
pub fn section_of<'a, T: Copy + Drop>(
    alloc: Global,
    items: &'a [T],
    whole: &AnyRect,
    part: &AnyRect,
) -> Result<Section<'a, T>, NoMemory>
    requires full { length items.now ≡ volume_of whole.now }
    requires covers { Covers whole.now part.now }
    ensures { IfOk result
        (λ part_items. IsSection whole.now part.now items.now (section_items part_items)) }
{
    if part.ranges() == whole.ranges() {
        return Ok(Section::Lent(items));
    }
    Ok(Section::Copied(copied(alloc, items, whole, part)?))
}

// The items of a part in a list of their own.
fn copied<T: Copy + Drop>(
    alloc: Global,
    items: &[T],
    whole: &AnyRect,
    part: &AnyRect,
) -> Result<Vec<T>, NoMemory>
    requires full { length items.now ≡ volume_of whole.now }
    requires covers { Covers whole.now part.now }
    ensures { IfOk result (λ copy. IsSection whole.now part.now items.now copy.items) }
{
    let count = part.volume() as usize;
    let mut copy = Vec::with_capacity(alloc, count)?;
    if count == 0 {
        return Ok(copy);
    }
    append_section(&mut copy, items, whole.ranges(), part.ranges())?;
    Ok(copy)
}

// Appends the items of a part, block after block of the first axis.
fn append_section<T: Copy + Drop>(
    out: &mut Vec<T>,
    items: &[T],
    whole: &[(u64, u64)],
    part: &[(u64, u64)],
) -> Result<(), AllocError>
    requires full { length items.now ≡ volume_of whole.now }
    requires part { IsPart whole.now part.now }
    ensures { OnOk result
        (out.new.items ≡ out.old.items ++ section whole.now part.now items.now) }
{
    let (Some((all, whole)), Some((some, part))) = (whole.split_first(), part.split_first()) else {
        return out.extend_from_slice(items);
    };
    if some.1 <= some.0 {
        return Ok(());
    }
    if whole.is_empty() {
        return append_run(out, items, *all, *some);
    }
    let size = items.len() / (all.1 - all.0) as usize;
    for i in some.0..some.1 {
        let at = (i - all.0) as usize * size;
        append_section(out, &items[at..at + size], whole, part)?;
    }
    Ok(())
}

// Appends the items of a part of one axis, which lie side by side.
#[tactic(auto, using(crate::proofs::SectionLemmas::one_run))]
fn append_run<T: Copy + Drop>(
    out: &mut Vec<T>,
    items: &[T],
    all: (u64, u64),
    some: (u64, u64),
) -> Result<(), AllocError>
    requires full { length items.now ≡ volume_of (all ∷ []) }
    requires part { IsPart (all ∷ []) (some ∷ []) }
    requires filled { some.0 ≤ some.1 }
    ensures { OnOk result
        (out.new.items ≡ out.old.items ++ section (all ∷ []) (some ∷ []) items.now) }
{
    out.extend_from_slice(&items[(some.0 - all.0) as usize..(some.1 - all.0) as usize])
}

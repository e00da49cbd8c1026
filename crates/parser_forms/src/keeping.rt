//! How a tree is made only where its nesting is at most 64, for all forms. These calls are generic, so
//! that no proof has to look into the trees that they hand on.

ghost use Rattle.std.specs.Prelude.{◌≡◌, ◌∷◌, ◌++◌, [], IfOk};
ghost use Rattle.parser_forms.specs.Kept as k;
ghost use Rattle.parser_forms.specs.Kept.{map_tree, raised, unboxed};

use crate::parts::Kept;
use crate::pieces::Piece;
use es_model::TreeList;
use std::alloc::{AllocError, Global};

/// Lets a value go. What holds a tree is let go by this call, so that the proof of a caller has no more
/// than the call at each of its ends.
pub(crate) fn lose<T: Drop>(_value: T) {}

/// Lets a piece go.
pub(crate) fn lose_piece(_piece: Piece) {}

/// Something with nothing in it, which doesn't count itself.
pub fn flat<T: Drop>(tree: T) -> Kept<T>
    ensures { result ≡ k.flat tree }
{
    Kept {
        tree: Some(tree),
        nesting: 0,
    }
}

/// One level of nesting more, up to 65.
pub fn raise(nesting: u8) -> u8
    ensures { result ≡ raised nesting }
{
    if nesting < 65 { nesting + 1 } else { 65 }
}

/// What was read, as one level of nesting more. Past 64 its tree is dropped.
pub fn counted<T: Drop>(of: Kept<T>) -> Kept<T>
    ensures { result ≡ k.counted of }
{
    let Kept { tree, nesting } = of;
    let nesting = raise(nesting);
    let tree = if nesting > 64 { None } else { tree };
    Kept { tree, nesting }
}

/// Two things side by side. Where one has no tree, the other's is dropped.
pub fn both<A: Drop, B: Drop>(first: Kept<A>, second: Kept<B>) -> Kept<(A, B)>
    ensures { result ≡ k.both (λ a b. (a, b)) first second }
{
    let Kept {
        tree: first,
        nesting,
    } = first;
    let Kept {
        tree: second,
        nesting: other,
    } = second;
    let nesting = if nesting < other { other } else { nesting };
    let tree = match (first, second) {
        (Some(first), Some(second)) => Some((first, second)),
        _ => None,
    };
    Kept { tree, nesting }
}

/// What was read, as one level of nesting more, and its tree in a box.
pub fn counted_box<T: Drop>(alloc: Global, of: Kept<T>) -> Result<Kept<Box<T>>, AllocError>
    ensures { IfOk result (λ made. unboxed made ≡ k.counted of) }
{
    let Kept { tree, nesting } = counted(of);
    let tree = box_of_option(alloc, tree)?;
    Ok(Kept { tree, nesting })
}

/// A tree that may be left out, in a box.
pub fn box_of_option<T: Drop>(alloc: Global, tree: Option<T>) -> Result<Option<Box<T>>, AllocError>
    ensures { IfOk result (λ made. map_tree (λ b. b.value) made ≡ tree) }
{
    match tree {
        Some(tree) => Ok(Some(Box::new(alloc, tree)?)),
        None => Ok(None),
    }
}

/// Two trees in boxes.
pub fn two_boxes<A: Drop, B: Drop>(
    alloc: Global,
    first: A,
    second: B,
) -> Result<(Box<A>, Box<B>), AllocError>
    ensures { IfOk result (λ made. (made.0.value ≡ first) × (made.1.value ≡ second)) }
{
    let first = Box::new(alloc, first)?;
    let second = Box::new(alloc, second)?;
    Ok((first, second))
}

/// Three trees in boxes.
pub fn three_boxes<A: Drop, B: Drop, C: Drop>(
    alloc: Global,
    first: A,
    second: B,
    third: C,
) -> Result<(Box<A>, Box<B>, Box<C>), AllocError>
    ensures { IfOk result (λ made. (made.0.value ≡ first) × (made.1.value ≡ second) × (made.2.value ≡ third)) }
{
    let (first, second) = two_boxes(alloc, first, second)?;
    let (third, (first, second)) = box_beside(alloc, third, (first, second))?;
    Ok((first, second, third))
}

/// A tree in a box, and something beside it as it is, which is dropped where memory is wanting.
pub fn box_beside<A: Drop, B: Drop>(
    alloc: Global,
    tree: A,
    beside: B,
) -> Result<(Box<A>, B), AllocError>
    ensures { IfOk result (λ made. (made.0.value ≡ tree) × (made.1 ≡ beside)) }
{
    Ok((Box::new(alloc, tree)?, beside))
}

/// A tree that may be left out in a box, and something beside it.
pub fn option_beside<A: Drop, B: Drop>(
    alloc: Global,
    tree: Option<A>,
    beside: B,
) -> Result<(Option<Box<A>>, B), AllocError>
    ensures { IfOk result (λ made. (map_tree (λ b. b.value) made.0 ≡ tree) × (made.1 ≡ beside)) }
{
    Ok((box_of_option(alloc, tree)?, beside))
}

/// A list, and one more behind it.
pub fn push<T: Drop>(list: TreeList<T>, one: T) -> Result<TreeList<T>, AllocError>
    ensures { IfOk result (λ made. made ≡ list ++ one ∷ []) }
{
    let mut list = list;
    list.push(one)?;
    Ok(list)
}

//! Joins a list of shapes to one, by halves, so that the depth grows with the logarithm of their number.
ghost use Rattle.std.specs.Prelude.{◌≡◌, ◌<◌, ◌≤◌, ◌-◌, ◌++◌, Some, IfOk, OnOk, length, map, take, drop};
ghost use Rattle.std.specs.Option.{option_map};
ghost use Rattle.sp_order.specs.Precedence.{tree_of};
ghost use Rattle.job_lang.specs.Joins.{join_of};
ghost use Rattle.job_lang.specs.Meaning.{join_list};
ghost use Rattle.job_lang.specs.Orders.{join_by};

use sp_order::Shape;
use std::alloc::{AllocError, Global};

/// How shapes are joined.
#[derive(Clone, Copy)]
pub enum Order {
    Series,
    Parallel,
}

/// Joins two shapes.
fn both(alloc: Global, order: Order, left: Shape, right: Shape) -> Result<Shape, AllocError>
    ensures { IfOk result (λ shape. tree_of shape ≡ join_by order (tree_of left) (tree_of right)) }
{
    let left = Box::new(alloc, left)?;
    let right = Box::new(alloc, right)?;
    match order {
        Order::Series => Ok(Shape::Seq(left, right)),
        Order::Parallel => Ok(Shape::Par(left, right)),
    }
}

/// Takes the last `count` shapes and joins them. A single shape is the result itself; more are halved, and both halves
/// joined in the same way.
fn join_last(
    alloc: Global,
    order: Order,
    shapes: &mut Vec<Shape>,
    count: usize,
) -> Result<Shape, AllocError>
    requires some { 0 < count }
    requires enough { count ≤ length shapes.old.items }
    ensures joins { IfOk result (λ shape.
        Some (tree_of shape)
        ≡ join_of (join_by order) (map tree_of (drop (length shapes.old.items - count) shapes.old.items))) }
    ensures leaves { IfOk result (λ _.
        shapes.new.items ≡ take (length shapes.old.items - count) shapes.old.items) }
{
    if count < 2 {
        let Some(shape) = shapes.pop() else {
            unreachable!();
        };
        return Ok(shape);
    }
    let right = join_last(alloc, order, shapes, count / 2)?;
    let left = join_last(alloc, order, shapes, count - count / 2)?;
    both(alloc, order, left, right)
}

/// Joins the shapes behind the first `before` to one in their place, if there are any.
pub(crate) fn join_from(
    alloc: Global,
    order: Order,
    shapes: &mut Vec<Shape>,
    before: usize,
) -> Result<(), AllocError>
    requires { before ≤ length shapes.old.items }
    ensures { OnOk result
        (map tree_of shapes.new.items
        ≡ map tree_of (take before shapes.old.items)
        ++ join_list (join_by order) (map tree_of (drop before shapes.old.items))) }
{
    let count = shapes.len() - before;
    if count < 2 {
        return Ok(());
    }
    let shape = join_last(alloc, order, shapes, count)?;
    shapes.push(shape)?;
    Ok(())
}

/// Joins all the shapes, if there are any.
pub fn join(
    alloc: Global,
    order: Order,
    mut shapes: Vec<Shape>,
) -> Result<Option<Shape>, AllocError>
    ensures { IfOk result (λ shape.
        option_map tree_of shape ≡ join_of (join_by order) (map tree_of shapes.items)) }
{
    let count = shapes.len();
    if count == 0 {
        return Ok(None);
    }
    let shape = join_last(alloc, order, &mut shapes, count)?;
    Ok(Some(shape))
}

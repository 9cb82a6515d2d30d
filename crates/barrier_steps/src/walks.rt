//! The way from the first block of an object to one of its fields.

ghost use Rattle.std.specs.Prelude.{◌≡◌, ◌<◌, ◌≤◌};
ghost use Rattle.block_store.specs.Places.{extent};
ghost use Rattle.block_store.specs.Shapes.{IsShape};
ghost use Rattle.block_store.specs.Widths.{payloads};
ghost use Rattle.barrier_steps.specs.Walks;
ghost use Rattle.barrier_steps.specs.Walks.{shape_length};

use crate::TreePath;
use array_trees::{depth_of, path_of};
use block_store::{Places, Shape};
use object_lists::walk_of;

// How many fields or elements there are.
pub(crate) fn length_of(shape: Shape) -> u32
    ensures { result ≡ shape_length shape }
{
    match shape {
        Shape::List(fields) => fields,
        Shape::Tree(elements) => elements,
    }
}

// How many links lead to the field.
#[inline(always)]
pub(crate) fn links_to(places: &Places, shape: Shape, index: u32) -> u32
    requires { IsShape shape }
    ensures { result ≡ Walks.links_to (extent places.now) shape index }
{
    match shape {
        Shape::List(_) => walk_of(places.width(), index).0,
        Shape::Tree(elements) => depth_of(places.width(), elements),
    }
}

// The payload of the next link.
pub(crate) fn link_at(places: &Places, way: TreePath, index: u32) -> u32
    requires shape { IsShape way.shape }
    requires index { index < shape_length way.shape }
    requires level { way.level ≤ Walks.links_to (extent places.now) way.shape index }
    ensures is { result ≡ Walks.link_at (extent places.now) way.shape index way.level }
    ensures low { result < payloads places.now.width }
{
    match way.shape {
        Shape::List(_) => 0,
        Shape::Tree(elements) => path_of(places.width(), elements, index, way.level),
    }
}

// The payload of the field in its block.
#[inline(always)]
pub(crate) fn field_at(places: &Places, way: TreePath, index: u32) -> u32
    requires shape { IsShape way.shape }
    requires index { index < shape_length way.shape }
    ensures is { result ≡ Walks.field_at (extent places.now) way.shape index }
    ensures low { result < payloads places.now.width }
{
    match way.shape {
        Shape::List(_) => walk_of(places.width(), index).1,
        Shape::Tree(elements) => path_of(
            places.width(),
            elements,
            index,
            depth_of(places.width(), elements),
        ),
    }
}

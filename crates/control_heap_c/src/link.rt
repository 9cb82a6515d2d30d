//! The pointer of a boxed value, in a form that C can keep.

ghost use Rattle.std.specs.Prelude.{◌≡◌, Option, Some, None};
ghost use Rattle.control_heap_c.specs.declared.owned.Owned.{Owned};
ghost use Rattle.control_heap_c.specs.Links.{link_owns, owned_coded};

mod parts;

use crate::owned::Owned;
use parts::Parts;
use std::alloc::Global;
use std::marker::Model;
use std::ptr::null_mut;

/// A pointer that owns a boxed value, or a pointer that owns nothing.
#[repr(C)]
#[derive(Drop)]
pub struct Link {
    at: *mut u8,
    alloc: Global,
    pub ghost value: { Option Owned } by { owned_coded },
}

impl Model for Link {
    ghost also_owns = { λ l. link_owns l.alloc l.at l.value };
}

impl Link {
    /// A link that owns nothing.
    pub fn none(alloc: Global) -> Link
        ensures { result.value ≡ None }
    {
        let at = null_mut();
        Link { at, alloc }
    }

    /// A link that owns this value.
    pub fn of(value: Box<Owned>) -> Link
        ensures { result.value ≡ Some value.value }
    {
        Link::of_parts(Parts::of(value))
    }

    /// The value of a link that owns one.
    pub fn into_box(self) -> Box<Owned>
        requires { (x : Owned) × (self.value ≡ Some x) }
        ensures { self.value ≡ Some result.value }
    {
        self.into_parts().into_box()
    }

    fn of_parts(parts: Parts<Owned, Global>) -> Link
        ensures { result.value ≡ Some parts.value }
    {
        let Parts { ptr, alloc } = parts;
        let at = ptr as *mut u8;
        Link { at, alloc }
    }

    fn into_parts(self) -> Parts<Owned, Global>
        requires { (x : Owned) × (self.value ≡ Some x) }
        ensures { self.value ≡ Some result.value }
    {
        let Link { at, alloc } = self;
        let ptr = at as *mut Owned;
        Parts { ptr, alloc }
    }
}

unsafe impl Send for Link {}

// A session behind a pointer that C holds.
//
// What a handle owns stands in its type (`owned_at`): so an export that is lent one is proved as any other
// function.
// The functions that reach the pointer are proved by hand, `none`, `of_parts` and `into_parts`, and those of
// `parts`, by which a box is taken apart; `take` and `put` go through them.
ghost use Rattle.std.specs.Prelude.{◌≡◌, MatchOption, None, Option, Some};
ghost use Rattle.layout_c.specs.Held.{Session, coded, owned_at};

mod parts;

use layout_cli::Responder;
use parts::Parts;
use std::alloc::Global;
use std::marker::Model;
use std::mem;
use std::ptr::null_mut;

/// What C sees of a session: a byte, of which it knows the place alone.
#[repr(C)]
#[derive(Drop)]
pub struct Opaque {
    byte: u8,
}

/// A handle: a pointer that owns a session, or is null. C has a struct of the one pointer; the allocator
/// takes no room.
#[repr(C)]
pub struct Held {
    at: *mut Opaque,
    alloc: Global,
    pub(crate) ghost session: { Option Session } by { coded },
}

impl Model for Held {
    ghost also_owns = { λ h. owned_at h.alloc h.at h.session };
}

impl Held {
    /// The null handle.
    pub(crate) fn none(alloc: Global) -> Held
        ensures { result.session ≡ None }
    {
        Held {
            at: null_mut(),
            alloc,
        }
    }

    // The handle that owns what these parts of a box owned.
    fn of_parts(parts: Parts<Responder, Global>) -> Held
        ensures { result.session ≡ Some parts.value }
    {
        let Parts { ptr, alloc } = parts;
        Held {
            at: ptr as *mut Opaque,
            alloc,
        }
    }

    // The parts of a box that own what the handle owned, unless it is null.
    fn into_parts(self) -> Option<Parts<Responder, Global>>
        ensures { MatchOption result (self.session ≡ None) (λ p. self.session ≡ Some p.value) }
    {
        let Held { at, alloc } = self;
        if at.is_null() {
            None
        } else {
            Some(Parts {
                ptr: at as *mut Responder,
                alloc,
            })
        }
    }

    /// The session, which is no longer the handle's.
    pub(crate) fn take(&mut self, alloc: Global) -> Option<Box<Responder>>
        ensures taken { MatchOption result (self.old.session ≡ None) (λ b. self.old.session ≡ Some b.value) }
        ensures gone { self.new.session ≡ None }
    {
        let held = mem::replace(self, Held::none(alloc));
        match held.into_parts() {
            Some(parts) => Some(parts.into_box()),
            None => None,
        }
    }

    /// Hands the handle a session. One that it had is dropped.
    pub(crate) fn put(&mut self, session: Box<Responder>)
        ensures { self.new.session ≡ Some session.value }
    {
        *self = Held::of_parts(Parts::of(session));
    }
}

impl Drop for Held {
    fn drop(self) {
        if let Some(parts) = self.into_parts() {
            drop(parts.into_box());
        }
    }
}

//! A handle to a volume.
ghost use Rattle.std.specs.Prelude.{◌≡◌, None, Some, Option, is_some, IfSome, IsNone, true};

use crate::loose::Loose;
use crate::open_volume::OpenVolume;
use crate::sealed::Sealed;
use std::alloc::Global;
use std::mem::replace;

/// An open volume, or nothing if it is closed. In C it is a pointer and a `bool`, both zero at first.
#[repr(C)]
pub struct Handle {
    pub sealed: Sealed,
    is_open: bool,
    ghost linked: { is_open ≡ is_some sealed.held },
}

impl Handle {
    /// Returns a closed handle.
    pub fn closed(alloc: Global) -> Handle
        ensures { result.sealed.held ≡ None }
    {
        Handle {
            sealed: Sealed::none(alloc),
            is_open: false,
        }
    }

    /// Returns a handle to this volume.
    pub(crate) fn of(volume: Box<OpenVolume>) -> Handle
        ensures { result.sealed.held ≡ Some volume.value }
    {
        Handle {
            sealed: Sealed::of_loose(Loose::of(volume)),
            is_open: true,
        }
    }

    /// True if the handle holds a volume.
    pub(crate) fn is_open(&self) -> bool
        ensures { result ≡ is_some self.now.sealed.held }
    {
        self.is_open
    }

    /// Returns the volume, or `None` if the handle is closed.
    pub(crate) fn into_box(self) -> Option<Box<OpenVolume>>
        ensures some { IfSome result (λ volume. self.sealed.held ≡ Some volume.value) }
        ensures none { IsNone result → self.sealed.held ≡ None }
    {
        let Handle { sealed, is_open } = self;
        if is_open {
            Some(sealed.into_loose().into_box())
        } else {
            None
        }
    }

    /// Takes the volume out of the handle, which is closed afterwards.
    pub(crate) fn take(&mut self, alloc: Global) -> Option<Box<OpenVolume>>
        ensures some { IfSome result (λ volume. self.old.sealed.held ≡ Some volume.value) }
        ensures none { IsNone result → self.old.sealed.held ≡ None }
        ensures closed { self.new.sealed.held ≡ None }
    {
        replace(self, Handle::closed(alloc)).into_box()
    }

    /// Puts a volume into the handle, and frees the one that it held before.
    pub(crate) fn put(&mut self, volume: Box<OpenVolume>)
        ensures { self.new.sealed.held ≡ Some volume.value }
    {
        *self = Handle::of(volume);
    }
}

impl Drop for Handle {
    fn drop(self) {
        drop(self.into_box());
    }
}

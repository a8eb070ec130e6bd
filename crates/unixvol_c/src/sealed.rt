//! An open volume, as a pointer that is opaque to C.
ghost use Rattle.std.specs.Prelude.{◌≡◌, None, Some, Option, is_some, true};
ghost use Rattle.unixvol_c.specs.Held.{held_owns, held_coded};
ghost use Rattle.unixvol_c.specs.contracts.open_volume.OpenVolume.{the_row};

use crate::loose::Loose;
use crate::open_volume::OpenVolume;
use std::alloc::Global;
use std::marker::Model;

/// An open volume on the heap, or none.
#[repr(C)]
#[derive(Drop)]
pub struct Sealed {
    ptr: *mut u8,
    alloc: Global,
    pub ghost held: { Option the_row.Denot } by { held_coded },
}

impl Model for Sealed {
    ghost also_owns = { λ sealed. held_owns sealed.alloc sealed.ptr sealed.held };
}

impl Sealed {
    /// Returns no volume.
    pub fn none(alloc: Global) -> Sealed
        ensures { result.held ≡ None }
    {
        Sealed {
            ptr: std::ptr::null_mut(),
            alloc,
        }
    }

    /// Returns the volume of a box.
    pub fn of_loose(loose: Loose<OpenVolume, Global>) -> Sealed
        ensures { result.held ≡ Some loose.value }
    {
        let Loose { ptr, alloc } = loose;
        Sealed {
            ptr: ptr as *mut u8,
            alloc,
        }
    }

    /// Returns the parts of the box.
    pub fn into_loose(self) -> Loose<OpenVolume, Global>
        requires { is_some self.held ≡ true }
        ensures { self.held ≡ Some result.value }
    {
        let Sealed { ptr, alloc } = self;
        Loose {
            ptr: ptr as *mut OpenVolume,
            alloc,
        }
    }
}

unsafe impl Send for Sealed {}

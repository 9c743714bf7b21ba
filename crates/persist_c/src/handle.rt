//! What a host keeps.

ghost use Rattle.std.specs.Prelude.{◌≡◌, Option, None, Some};
ghost use Rattle.std.specs.Option.{option_map};
ghost use Rattle.std.specs.Coded.{coded_option};
ghost use Rattle.persist_live.specs.declared.live.Live.{Live};
ghost use Rattle.persist_live.specs.contracts.live.Live.{the_row as session_row};
ghost use Rattle.persist_c.specs.Held.{held_at};

use persist_live::Live;
use pst_loose::Loose;
use std::alloc::Global;
use std::marker::Model;
use std::mem;
use std::ptr::null_mut;

/// A session, or none, in a host's hands. The host makes one that holds none by setting it to zero.
#[repr(C)]
#[derive(Drop)]
pub struct Handle {
    at: *mut u8,
    pub ghost session: { Option Live } by { coded_option session_row.coded },
}

impl Model for Handle {
    ghost also_owns = { λ h. held_at session_row h.at h.session };
}

impl Handle {
    fn empty() -> Handle
        ensures { result.session ≡ None }
    {
        Handle { at: null_mut() }
    }

    fn holding(loose: Loose<Live, Global>) -> Handle
        ensures { result.session ≡ Some loose.value }
    {
        let Loose { at, alloc: _ } = loose;
        Handle { at: at as *mut u8 }
    }

    fn into_loose(self, alloc: Global) -> Option<Loose<Live, Global>>
        ensures { option_map (λ l. l.value) result ≡ self.session }
    {
        let Handle { at } = self;
        if at.is_null() {
            None
        } else {
            Some(Loose {
                at: at as *mut Live,
                alloc,
            })
        }
    }

    /// Takes the session out.
    pub(crate) fn take(&mut self, alloc: Global) -> Option<Box<Live>>
        ensures taken { option_map (λ b. b.value) result ≡ self.old.session }
        ensures none { self.new.session ≡ None }
    {
        let old = mem::replace(self, Handle::empty());
        match old.into_loose(alloc) {
            None => None,
            Some(loose) => Some(loose.into_box()),
        }
    }

    /// Puts a session in the place of none.
    pub(crate) fn put(&mut self, session: Box<Live>)
        ensures { self.new.session ≡ Some session.value }
    {
        mem::forget(mem::replace(self, Handle::holding(Loose::of(session))));
    }
}

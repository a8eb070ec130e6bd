//! A list of the calls of one request.
use std::alloc::{AllocError, Global};
use std::marker::Model;
use vol_volume::Call;

/// The calls of a request, in order. Contracts see it as a list.
#[derive(Drop)]
pub struct Calls {
    calls: Vec<Call>,
}

impl Model for Calls {
    ghost use Rattle.std.specs.Prelude.{List};
    ghost use Rattle.vol_volume.specs.declared.calls.Call.{Call};

    ghost Value = { List Call };

    ghost view = { λ held. held.calls.items };
}

impl Calls {
    ghost use Rattle.std.specs.Prelude.{◌≡◌, ◌∷◌, ◌++◌, [], IfOk, OnOk};
    ghost use Rattle.std.specs.Option.{option_to_list};

    /// Returns an empty list. Takes no memory.
    pub(crate) fn none(alloc: Global) -> Calls
        ensures { result ≡ [] }
    {
        Calls {
            calls: Vec::new(alloc),
        }
    }

    /// Returns a list of one call.
    pub(crate) fn one(alloc: Global, call: Call) -> Result<Calls, AllocError>
        ensures { IfOk result (λ calls. calls ≡ call ∷ []) }
    {
        let mut calls = Calls::none(alloc);
        calls.push(call)?;
        Ok(calls)
    }

    /// Appends a call.
    pub(crate) fn push(&mut self, call: Call) -> Result<(), AllocError>
        ensures { OnOk result (self.new ≡ self.old ++ call ∷ []) }
    {
        self.calls.push(call)?;
        Ok(())
    }

    /// Appends a call, if one is given.
    pub(crate) fn extend(&mut self, call: Option<Call>) -> Result<(), AllocError>
        ensures { OnOk result (self.new ≡ self.old ++ option_to_list call) }
    {
        match call {
            Some(call) => self.push(call),
            None => Ok(()),
        }
    }

    /// Returns the calls as a slice.
    pub(crate) fn as_slice(&self) -> &[Call]
        ensures { result.now ≡ self.now }
    {
        &self.calls
    }

    /// Returns the calls as a vector.
    pub(crate) fn into_vec(self) -> Vec<Call>
        ensures { result.items ≡ self }
    {
        self.calls
    }
}

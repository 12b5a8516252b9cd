ghost use Rattle.std.specs.Prelude.{◌≡◌, IfErr, IfOk, IsOk};

use crate::call::Call;
use ipc_base::Memory;
use std::marker::Model;

/// A call that was entered, behind one pointer: an entry that has one is moved without it. Seen as
/// the call's parts.
#[derive(Drop)]
pub struct EnteredCall {
    call: Box<Call>,
}

impl Model for EnteredCall {
    ghost use Rattle.ipc_history.specs.CallParts.{CallParts};

    ghost Value = { CallParts };

    ghost view = { λ e. e.call.value };
}

impl EnteredCall {
    /// Moves a call there; its lists are not copied. Where memory is refused the call is handed
    /// back, and where it is ample that does not come.
    pub fn new<M: Memory>(memory: M, call: Call) -> Result<EnteredCall, Call>
        ensures ok { IfOk result (λ entered. entered ≡ call) }
        ensures back { IfErr result (λ refused. refused ≡ call) }
        ensures ample { M.is_ample → IsOk result }
    {
        let call = memory.boxed(call)?;
        Ok(EnteredCall { call })
    }

    /// Moves the call out. Takes no memory.
    pub fn into_call(self) -> Call
        ensures { result ≡ self }
    {
        let EnteredCall { call } = self;
        Box::into_inner(call)
    }

    /// The call.
    pub fn call(&self) -> &Call
        ensures { result.now ≡ self.now }
    {
        &self.call
    }
}

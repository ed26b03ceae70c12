//! What follows from the definitions of this crate.
ghost use Rattle.std.specs.Prelude.{◌≡◌, Ok};
ghost use Rattle.shunt_plan.specs.declared.edits.Edit.{Edit};
ghost use Rattle.shunt_instance.specs.defs.Instance.{Night};
ghost use Rattle.shunt_moves.specs.declared.exchange.Exchange.{Exchange};
ghost use Rattle.shunt_moves.specs.defs.States.{State, IsState};
ghost use Rattle.shunt_moves.specs.defs.Edits.{refusal, made, edit};
ghost use Rattle.shunt_moves.specs.defs.Exchanges.{Agrees, LeadsOn, exchanged, flipped, planned};

/// An accepted edit makes a state of a state. What goes and what comes at an edit leads to what the edit makes, and is refused
/// exactly when and for the reason that the edit is; and the exchange that is turned round leads back.
pub fn edits()
    ensures kept { (night : Night) (s t : State) (e : Edit) → IsState night s
        → edit night s e ≡ Ok t → IsState night t }
    ensures agree { (night : Night) (s : State) (e : Edit) → IsState night s
        → Agrees night s (made s e) (refusal night s e) (planned night s e) }
    ensures leads { (night : Night) (x : Exchange) (s t : State) → LeadsOn night x s t
        → exchanged x s ≡ t }
    ensures back { (night : Night) (x : Exchange) (s t : State) → LeadsOn night x s t
        → LeadsOn night (flipped x s.next) t s }
{}

//! What a worker passes before each of its turns.

ghost use Rattle.std.specs.Prelude.{◌≡◌};

/// A worker of a copy that has turns.
#[derive(Clone, Copy, Debug, Default, PartialEq, Eq, Drop)]
pub enum Who {
    #[default]
    Reader,
    Relay,
    Writer,
}

/// A place that each worker passes at the beginning of each turn. It may hold a worker up, and it changes nothing of a
/// copy.
pub trait Gate {
    /// The worker `who` begins its turn of this number, counted from 1.
    fn pass(&self, who: Who, turn: u64);
}

/// That worker `who` has passed the gate for one turn. It is made by `pass_gate` alone and can't be let go: a turn gives
/// it up (`GatePass::spend`), so each turn of a worker has its own pass.
pub struct GatePass {
    pub who: Who,
    turn: u64,
}

impl GatePass {
    /// Gives it up: the turn begins.
    pub fn spend(self) {
        let GatePass { who, turn } = self;
        let _ = (who, turn);
    }
}

/// Passes the gate, once, as worker `who` that begins its turn of this number, counted from 1.
pub fn pass_gate<G: Gate>(gate: &G, who: Who, turn: u64) -> GatePass
    ensures own { result.who ≡ who }
{
    gate.pass(who, turn);
    GatePass { who, turn }
}

/// A gate that lets everybody pass at once.
#[derive(Clone, Copy, Debug, Drop)]
pub struct OpenGate;

impl Gate for OpenGate {
    fn pass(&self, who: Who, turn: u64) {
        let _ = (who, turn);
    }
}

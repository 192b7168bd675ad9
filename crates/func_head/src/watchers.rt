ghost use Rattle.std.specs.Prelude.{◌≡◌, [], List};
ghost use Rattle.func_head.specs.Walks.{EntryState, entry, seen_by, shown};

use crate::head::FuncHead;
use crate::walks::WakeFn;
use wait_model::layout::NORMAL;

/// Who is shown pieces of bytes, one after another.
///
/// Code above that only shows pieces takes watchers, so that it also runs with none.
pub trait Watchers {
    /// The entries whose functions are called with each piece, in their order.
    ghost entries: { Self → List EntryState };

    /// Shows a piece to all of them by one walk: an ordinary wake without a count, whose key is the piece.
    fn show(&mut self, piece: &[u8])
        ensures { entries self.new ≡ shown piece.now (entries self.old) };
}

impl Watchers for FuncHead {
    ghost entries = { λ head. seen_by head.entries.items (λ e. entry e.id e.exclusive e.priority
        ((WakeFn-box e.func).meaning e.func.value)) };

    fn show(&mut self, piece: &[u8]) {
        self.wake(NORMAL, 0, piece);
    }
}

/// Nobody, who is shown everything.
#[derive(Clone, Copy, Debug, Drop)]
pub struct NoWatchers;

impl Watchers for NoWatchers {
    ghost entries = { λ none. [] };

    fn show(&mut self, _piece: &[u8]) {}
}

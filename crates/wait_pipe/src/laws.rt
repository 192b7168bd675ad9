//! What whole calls on pipes make, as sentences over those of the model, and whom they leave asleep.

ghost use Rattle.wait_pipe.specs.LosesNone.{ClosesLoseNone, PassesLoseNone, PipesLoseNone};
ghost use Rattle.wait_pipe.specs.PipeWords.{ClosesFollow, PeeksFollow, ReadsFollow, TurnsHeed, WritesFollow};

/// What a `write_piece`, a `read_piece`, a `peek_read`, a `close_write` and a `close_read` have made, as one list of events
/// of the model and of cells, follows their sentences, and their answers are those that the sentences give: by the table
/// that a load of the base word shows after the call (`Task::witness`), and of a `peek_read` by any.
pub fn calls_follow_sentences()
    ensures writes { WritesFollow }
    ensures reads { ReadsFollow }
    ensures peeks { PeeksFollow }
    ensures closes { ClosesFollow }
{}

/// A `write_piece` or a `read_piece` that answers Interrupted has made, as its last events, a turn that found an
/// admissible signal and left its entry off, and then a load that found the other end's word as it was.
pub fn signals_are_heeded()
    ensures { TurnsHeed }
{}

/// Nobody sleeps at a pipe that has a cell for it, or whose other end is closed, but while some task owes the wake of it.
/// After a `write_piece` or a `read_piece` that passed cells on, and after a close, that is another task than the one that
/// did: so this task leaves nobody.
pub fn pipes_lose_none()
    ensures asleep { PipesLoseNone }
    ensures passes { PassesLoseNone }
    ensures closes { ClosesLoseNone }
{}

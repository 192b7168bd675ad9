//! Classes of calls that can be left.

ghost use Rattle.std.specs.Prelude.{◌≡◌};
ghost use Rattle.wait_class.specs.{Frames.framed, declared.frame_stages.Framed.Framed};
ghost use Rattle.wait_class.specs.declared.frame_stages.Stage.{Stage};
ghost use Rattle.wait_leave.specs.{Leaves.Exits, ExitLaws.AreLawfulExits};

use crate::exits::Exit;
use wait_class::frame_stages::{Framed, Stage};
use wait_class::frames::Frame;
use wait_class::machines::Machine;

/// A class of calls that can be left.
pub trait Leavable: Machine {
    ghost exits: { Exits Self Self.Stage Self.Outcome };

    /// The call, asked to leave.
    fn asked(self) -> Self
        ensures { result ≡ exits.asks self };

    /// Where it goes on that is asked at a stage; none where it first goes on as it was, since its ticket is drawn or it
    /// holds a head, or since it goes to its end anyhow.
    fn exit(self, stage: Self::Stage) -> Option<Exit<Self::Stage, Self::Outcome>>
        ensures { result ≡ exits.exit self stage };

    /// The exits keep the laws.
    fn may_leave()
        ensures { AreLawfulExits Self.table exits };
}

/// Such a class of calls that prepare and finish as the waits for bits do.
pub trait Parting: Frame {
    ghost parting: { Exits (Framed Self) (Stage Self.Test) Self.Outcome };

    /// The call, asked to leave.
    fn asked(call: Framed<Self>) -> Framed<Self>
        ensures { result ≡ parting.asks call };

    /// Where it goes on that is asked at a stage.
    fn exit(
        call: Framed<Self>,
        stage: Stage<Self::Test>,
    ) -> Option<Exit<Stage<Self::Test>, Self::Outcome>>
        ensures { result ≡ parting.exit call stage };

    /// The exits keep the laws.
    fn may_leave()
        ensures { AreLawfulExits (framed Self.frame) parting };
}

impl<F: Parting> Leavable for Framed<F> {
    ghost exits = { F.parting };

    #[inline(always)]
    fn asked(self) -> Framed<F> {
        F::asked(self)
    }

    #[inline(always)]
    fn exit(self, stage: Stage<F::Test>) -> Option<Exit<Stage<F::Test>, F::Outcome>> {
        F::exit(self, stage)
    }

    #[inline(always)]
    fn may_leave() {
        F::may_leave();
    }
}

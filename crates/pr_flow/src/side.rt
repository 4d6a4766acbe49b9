// A node, as a flow sees it.
ghost use Rattle.pr_flow.specs.Calls.{AcceptMakes, Call, Accepting, DownMakes, Ending, TurnMakes, Turning, fault_of};
ghost use Rattle.pr_inval.specs.declared.node_fault.NodeFault.{NodeFault};
ghost use Rattle.pr_inval.specs.Standing.{means};
ghost use Rattle.pr_story.specs.declared.entry.Entry.{Entry};
ghost use Rattle.pr_inval.specs.Messages.{IsMessage};
ghost use Rattle.std.specs.Prelude.{IsTrue, List, Option};

use pr_inval::{Msg, NodeFault, Session, Step, Taken};
use pr_story::Cause;

/// One end of a stream. A call that is answered Ok makes one entry, and one that is answered a fault makes none and
/// leaves the session, but for its room.
pub trait Side {
    /// The entries that were made through it, the oldest first.
    ghost made: { Self → List Entry };

    /// What a call does, in the words of the side itself: the side before it, what the call was given, the fault where
    /// it was answered one, and the side after it.
    ghost act: { Self → Call → Option NodeFault → Self → Type 0 };

    /// A turn of the session's stream, at its source.
    fn turn(&mut self, session: &mut Session) -> Result<Step, NodeFault>
        requires { IsTrue (means session.old).attached }
        ensures made { TurnMakes (made self.old) (made self.new) (means session.old) (means session.new) result }
        ensures act { act self.old (Turning (means session.old) (means session.new)) (fault_of result) self.new };

    /// Takes a message, at its stream's destination.
    fn accept(&mut self, msg: Msg) -> Result<Taken, NodeFault>
        requires { IsMessage msg }
        ensures made { AcceptMakes (made self.old) (made self.new) msg result }
        ensures act { act self.old (Accepting msg) (fault_of result) self.new };

    /// Notes that a flow of the session's stream went down, at its destination.
    fn down(&mut self, session: &mut Session, cause: Cause) -> Result<(), NodeFault>
        ensures made { DownMakes (made self.old) (made self.new) (means session.old) (means session.new) cause result }
        ensures act { act self.old (Ending cause (means session.old) (means session.new)) (fault_of result) self.new };
}

// Commands on one node.
ghost use Rattle.pr_sim.specs.Commands.{ForEachRun, GivesOne};
ghost use Rattle.pr_sim.specs.Running.{IsKept};
ghost use Rattle.pr_story.specs.Commands.{ToCut, ToDrop, ToFindConflicts, ToTellState};
ghost use Rattle.std.specs.Prelude.{◌<◌, length};

use crate::engine::{CALLER, Engine};
use pr_inval::NodeFault;
use pr_names::Name;

impl Engine {
    /// Truncates a node's log, in the time of the node's `cut`.
    pub fn cut(&mut self, node: u32) -> Result<(), NodeFault>
        requires kept { IsKept self.old }
        requires known { node < length self.old.nodes.items }
        ensures { ForEachRun self.old (λ d attached h. GivesOne (ToCut node) d attached h self.new result) }
    {
        self.history.reserve(1)?;
        let Some(at) = &mut self.nodes[node as usize] else {
            unreachable!()
        };
        let place = at.journal().len();
        let _ = at.cut(CALLER)?;
        self.history.push((node, place));
        Ok(())
    }

    /// Drops a node's bodies of a name, in the time of the node's `drop_body`.
    pub fn drop_body(&mut self, node: u32, name: &Name) -> Result<(), NodeFault>
        requires kept { IsKept self.old }
        requires known { node < length self.old.nodes.items }
        ensures { ForEachRun self.old (λ d attached h. GivesOne (ToDrop node name.now) d attached h self.new result) }
    {
        self.history.reserve(1)?;
        let Some(at) = &mut self.nodes[node as usize] else {
            unreachable!()
        };
        let place = at.journal().len();
        at.drop_body(CALLER, name)?;
        self.history.push((node, place));
        Ok(())
    }

    /// Finds the conflicts of a name at a node, in the time of the node's `conflicts`.
    pub fn conflicts(&mut self, node: u32, name: &Name) -> Result<(), NodeFault>
        requires kept { IsKept self.old }
        requires known { node < length self.old.nodes.items }
        ensures { ForEachRun self.old (λ d attached h. GivesOne (ToFindConflicts node name.now) d attached h self.new result) }
    {
        self.history.reserve(1)?;
        let Some(at) = &mut self.nodes[node as usize] else {
            unreachable!()
        };
        let place = at.journal().len();
        let _ = at.conflicts(CALLER, name)?;
        self.history.push((node, place));
        Ok(())
    }

    /// Tells a node's state, in the time of the node's `state`.
    pub fn state(&mut self, node: u32) -> Result<(), NodeFault>
        requires kept { IsKept self.old }
        requires known { node < length self.old.nodes.items }
        ensures { ForEachRun self.old (λ d attached h. GivesOne (ToTellState node) d attached h self.new result) }
    {
        self.history.reserve(1)?;
        let Some(at) = &mut self.nodes[node as usize] else {
            unreachable!()
        };
        let place = at.journal().len();
        at.state(CALLER)?;
        self.history.push((node, place));
        Ok(())
    }
}

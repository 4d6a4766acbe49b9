// Commands of clients.
ghost use Rattle.pr_node.specs.Calls.{seen_after_done, seen_after_read};
ghost use Rattle.pr_sim.specs.Commands.{ForEachRun, GivesOne};
ghost use Rattle.pr_sim.specs.Running.{IsKept};
ghost use Rattle.pr_story.specs.Commands.{ToMove, ToRead, ToWrite};
ghost use Rattle.std.specs.Prelude.{◌≡◌, ◌<◌, ◌≤◌, ℕ, List, [], false, true, length, slice_index_or, slice_set};

use crate::engine::{CALLER, Engine};
use crate::slots::{number, vector};
use pr_inval::NodeFault;
use pr_names::Name;
use pr_node::{Done, Seen};
use pr_vectors::Vector;

impl Engine {
    /// A client moves to a node, in constant time.
    pub fn move_client(&mut self, client: u32, node: u32) -> Result<(), NodeFault>
        requires kept { IsKept self.old }
        requires known { node < length self.old.nodes.items }
        requires client { client < length self.old.homes.items }
        ensures { ForEachRun self.old (λ d attached h. GivesOne (ToMove client node) d attached h self.new result) }
    {
        self.history.reserve(1)?;
        let Some(at) = &mut self.nodes[node as usize] else {
            unreachable!()
        };
        let place = at.journal().len();
        at.moved(CALLER, client)?;
        self.history.push((node, place));
        self.homes[client as usize] = node;
        Ok(())
    }

    /// A client writes to a name, at the node where it stands, in the time of the node's `write`.
    pub fn write(&mut self, client: u32, name: &Name, body: &[u8]) -> Result<(), NodeFault>
        requires kept { IsKept self.old }
        requires client { client < length self.old.homes.items }
        requires short { length body.now ≤ 65536 }
        ensures { ForEachRun self.old (λ d attached h. GivesOne (ToWrite client name.now body.now false) d attached h self.new result) }
    {
        let node = number(&self.homes, client);
        self.history.reserve(1)?;
        let Some(at) = &mut self.nodes[node as usize] else {
            unreachable!()
        };
        let place = at.journal().len();
        let seen = vector(&self.seen, client);
        let done = at.write(CALLER, client, name, body, seen)?;
        self.history.push((node, place));
        note_done(&mut self.seen, client, &done, &at.vector());
        Ok(())
    }

    /// A client deletes a name, in the time of its node's `delete`.
    pub fn delete(&mut self, client: u32, name: &Name) -> Result<(), NodeFault>
        requires kept { IsKept self.old }
        requires client { client < length self.old.homes.items }
        ensures { ForEachRun self.old (λ d attached h. GivesOne (ToWrite client name.now [] true) d attached h self.new result) }
    {
        let node = number(&self.homes, client);
        self.history.reserve(1)?;
        let Some(at) = &mut self.nodes[node as usize] else {
            unreachable!()
        };
        let place = at.journal().len();
        let seen = vector(&self.seen, client);
        let done = at.delete(CALLER, client, name, seen)?;
        self.history.push((node, place));
        note_done(&mut self.seen, client, &done, &at.vector());
        Ok(())
    }

    /// A client reads a name, in the time of its node's `read`.
    pub fn read(&mut self, client: u32, name: &Name) -> Result<(), NodeFault>
        requires kept { IsKept self.old }
        requires client { client < length self.old.homes.items }
        ensures { ForEachRun self.old (λ d attached h. GivesOne (ToRead client name.now) d attached h self.new result) }
    {
        let node = number(&self.homes, client);
        self.history.reserve(1)?;
        let Some(at) = &mut self.nodes[node as usize] else {
            unreachable!()
        };
        let place = at.journal().len();
        let seen = vector(&self.seen, client);
        let answered = at.read(CALLER, client, name, seen)?;
        self.history.push((node, place));
        note_read(&mut self.seen, client, &answered, &at.vector());
        Ok(())
    }
}

// What the client has seen after a write at a node with this vector.
fn note_done(seen: &mut Vec<Vector>, client: u32, done: &Done, now: &Vector)
    requires { client < length seen.old.items }
    ensures { (d : List ℕ) → seen.new.items ≡ slice_set seen.old.items client (seen_after_done done.now (slice_index_or seen.old.items client d) now.now) }
{
    match done {
        Done::Stamp(_) => seen[client as usize] = *now,
        Done::Behind { .. } => {}
    }
}

// The same after a read.
fn note_read(seen: &mut Vec<Vector>, client: u32, answered: &Seen, now: &Vector)
    requires { client < length seen.old.items }
    ensures { (d : List ℕ) → seen.new.items ≡ slice_set seen.old.items client (seen_after_read answered.now (slice_index_or seen.old.items client d) now.now) }
{
    match answered {
        Seen::Reply(_) => seen[client as usize] = *now,
        Seen::Behind { .. } => {}
    }
}

// What asks for a stream.
ghost use Rattle.pr_serve.specs.Asks.{IsAsk, ask_at, ask_text, is_asking};
ghost use Rattle.pr_wire.specs.Reading.{Gives};
ghost use Rattle.std.specs.Prelude.{◌≡◌, ◌≤◌, ◌++◌, List, IfOk, OnErr, OnOk, length, take, true};

use pr_inval::Bytes;
use pr_sets::NameSet;
use pr_stamps::NoMemory;
use pr_vectors::Vector;
use pr_wire::{Cursor, Fault, append_eight, append_four, append_set, append_vector};
use std::alloc::Global;

/// The most turns that an ask is for.
pub const MOST_TURNS: u64 = 1_000_000;

/// The first byte of an ask.
pub const MARK: u8 = 81;

/// An ask for a stream (docs/WIRE.md): its number, the vector that its destination starts at, the names of the
/// subscription, whether bodies are wanted, and the most turns of the answer. It is for at least one name, and for 1 to
/// `MOST_TURNS` turns.
#[derive(Drop)]
pub struct Ask {
    pub stream: u32,
    pub start: Vector,
    pub sub: NameSet,
    pub bodies: bool,
    pub turns: u64,
}

impl Ask {
    /// Adds its spelling (docs/WIRE.md), in time linear in the intervals of the set. A refusal leaves the bytes.
    pub fn write(&self, out: &mut Bytes) -> Result<(), NoMemory>
        requires some { 1 ≤ length self.now.sub }
        requires from_one { 1 ≤ self.now.turns }
        requires most { self.now.turns ≤ 1000000 }
        ensures ok { OnOk result (out.new ≡ out.old ++ ask_text self.now) }
        ensures err { OnErr result (out.new ≡ out.old) }
        ensures ask { IsAsk self.now }
    {
        self.known();
        let len = out.len();
        match self.append_to(out) {
            Ok(()) => Ok(()),
            Err(_) => {
                out.truncate(len);
                Err(NoMemory)
            }
        }
    }

    // Its fields are in the ranges of their types.
    fn known(&self)
        requires some { 1 ≤ length self.now.sub }
        requires from_one { 1 ≤ self.now.turns }
        requires most { self.now.turns ≤ 1000000 }
        ensures { IsAsk self.now }
    {
        let _stream = self.stream;
        let _clock = self.start.at(0);
        let _count = self.sub.parts().len();
    }

    // After a refusal a beginning of the spelling was added.
    #[tactic(auto, unfolding(crate::specs::Asks::ask_text))]
    fn append_to(&self, out: &mut Bytes) -> Result<(), NoMemory>
        ensures ok { OnOk result (out.new ≡ out.old ++ ask_text self.now) }
        ensures kept { take (length out.old) out.new ≡ out.old }
    {
        out.push(MARK)?;
        append_four(self.stream, out)?;
        append_vector(&self.start, out)?;
        append_set(&self.sub, out)?;
        out.push(u8::from(self.bodies))?;
        append_eight(self.turns, out)
    }

    /// The ask at the front of what the cursor has left, which is taken off, in time linear in the intervals of its set.
    #[tactic(auto, unfolding(crate::specs::Asks::ask_at))]
    pub fn read(alloc: Global, cursor: &mut Cursor) -> Result<Ask, Fault>
        ensures read { Gives (λ x. (x, cursor.new.rest.now)) result (ask_at cursor.old.rest.now) }
        ensures ask { IfOk result IsAsk }
    {
        if cursor.byte()? != MARK {
            return Err(Fault::Bad);
        }
        let stream = cursor.four()?;
        let start = cursor.vector()?;
        let sub = cursor.target(alloc)?;
        let bodies = cursor.flag()?;
        let turns = cursor.eight()?;
        if !is_asking(&sub, turns) {
            return Err(Fault::Bad);
        }
        let ask = Ask {
            stream,
            start,
            sub,
            bodies,
            turns,
        };
        ask.known();
        Ok(ask)
    }
}

// Whether so many turns for these names can be asked for.
fn is_asking(sub: &NameSet, turns: u64) -> bool
    ensures test { result ≡ is_asking (length sub.now) turns }
    ensures ranges { result ≡ true → (1 ≤ length sub.now) × (1 ≤ turns) × (turns ≤ 1000000) }
{
    1 <= sub.count() && 1 <= turns && turns <= MOST_TURNS
}

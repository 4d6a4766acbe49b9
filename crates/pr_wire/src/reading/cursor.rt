// Numbers and runs of bytes.
ghost use Rattle.pr_wire.specs.Reading.{Gives, byte_at, bytes_at, eight_at, four_at};
ghost use Rattle.std.specs.Prelude.{List};

use crate::fault::Fault;

/// The bytes that are still to be read (docs/WIRE.md). A call takes its field off their front, in time linear in it; after
/// a fault they are of no use. Bad says that the front is none of the field.
#[derive(Drop)]
pub struct Cursor<'a> {
    pub rest: &'a [u8],
}

impl<'a> Cursor<'a> {
    /// A number in one byte.
    pub fn byte(&mut self) -> Result<u8, Fault>
        ensures { Gives (λ x. (x, self.new.rest.now)) result (byte_at self.old.rest.now) }
    {
        match self.rest {
            [] => Err(Fault::Bad),
            [byte, rest @ ..] => {
                self.rest = rest;
                Ok(*byte)
            }
        }
    }

    /// So many bytes.
    #[tactic(auto, unfolding(crate::specs::Reading::bytes_at))]
    pub fn run(&mut self, len: usize) -> Result<&'a [u8], Fault>
        ensures { Gives (λ x. (x.now, self.new.rest.now)) result (bytes_at len self.old.rest.now) }
    {
        if self.rest.len() < len {
            return Err(Fault::Bad);
        }
        let (front, rest) = self.rest.split_at(len);
        self.rest = rest;
        Ok(front)
    }

    /// A number in 8 bytes, the highest first.
    #[tactic(auto, unfolding(crate::specs::Reading::eight_at))]
    pub fn eight(&mut self) -> Result<u64, Fault>
        ensures { Gives (λ x. (x, self.new.rest.now)) result (eight_at self.old.rest.now) }
    {
        if self.rest.len() < 8 {
            return Err(Fault::Bad);
        }
        let (front, rest) = self.rest.split_at(8);
        self.rest = rest;
        Ok(u64::from_be_bytes([
            front[0], front[1], front[2], front[3], front[4], front[5], front[6], front[7],
        ]))
    }

    /// A number in 4 bytes, the highest first.
    #[tactic(auto, unfolding(crate::specs::Reading::four_at))]
    pub fn four(&mut self) -> Result<u32, Fault>
        ensures { Gives (λ x. (x, self.new.rest.now)) result (four_at self.old.rest.now) }
    {
        if self.rest.len() < 4 {
            return Err(Fault::Bad);
        }
        let (front, rest) = self.rest.split_at(4);
        self.rest = rest;
        Ok(u32::from_be_bytes([front[0], front[1], front[2], front[3]]))
    }
}

// Where messages were sent and where they came.

use crate::entries::event_at;
use pr_inval::Msg;
use pr_sim::Engine;
use pr_stamps::NoMemory;
use pr_story::Event;
use std::alloc::{AllocError, Global};

/// Of each stream the places of its sends in the history, in the order of the messages' numbers; and of each place where
/// the message that was sent there came first.
#[derive(Drop)]
pub struct Flights {
    sends: Vec<Vec<usize>>,
    arrivals: Vec<Option<usize>>,
}

impl Flights {
    /// The flights of a history over so many streams, in time linear in both.
    pub fn new(alloc: Global, streams: usize, engine: &Engine) -> Result<Flights, NoMemory> {
        let mut flights = Flights {
            sends: no_sends(alloc, streams)?,
            arrivals: Vec::new(alloc),
        };
        for at in 0..engine.history().len() {
            flights.add(engine, at)?;
        }
        Ok(flights)
    }

    /// Where the message that was sent at this place came first; None where it did not come.
    pub fn arrival(&self, at: usize) -> Option<usize> {
        *self.arrivals.get(at)?
    }

    /// Where the message was sent.
    pub fn sent(&self, msg: &Msg) -> Option<usize> {
        let sends = self.sends.get(msg.stream as usize)?;
        sends.get(msg.number.checked_sub(1)? as usize).copied()
    }

    // Adds the entry at this place.
    fn add(&mut self, engine: &Engine, at: usize) -> Result<(), NoMemory> {
        if self.arrivals.push(None).is_err() {
            return Err(NoMemory);
        }
        match event_at(engine, at) {
            Some((_, Event::Sent { msg })) => self.leave(msg.stream, at),
            Some((_, Event::Accepted { msg, .. })) => {
                self.come(self.sent(msg), at);
                Ok(())
            }
            Some((_, Event::Gapped { msg, .. })) => {
                self.come(self.sent(msg), at);
                Ok(())
            }
            _ => Ok(()),
        }
    }

    fn leave(&mut self, stream: u32, at: usize) -> Result<(), NoMemory> {
        match self.sends.get_mut(stream as usize) {
            Some(sends) => pushed(sends, at),
            None => Ok(()),
        }
    }

    // What was sent there comes here, unless it came before.
    fn come(&mut self, sent: Option<usize>, at: usize) {
        if let Some(sent) = sent
            && let Some(arrival) = self.arrivals.get_mut(sent)
            && arrival.is_none()
        {
            *arrival = Some(at);
        }
    }
}

fn pushed(places: &mut Vec<usize>, at: usize) -> Result<(), NoMemory> {
    match places.push(at) {
        Ok(()) => Ok(()),
        Err(_) => Err(NoMemory),
    }
}

fn no_sends(alloc: Global, streams: usize) -> Result<Vec<Vec<usize>>, NoMemory> {
    let mut sends = Vec::new(alloc);
    for _ in 0..streams {
        if sends.push(Vec::new(alloc)).is_err() {
            return Err(NoMemory);
        }
    }
    Ok(sends)
}

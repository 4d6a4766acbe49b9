// A script's history, line after line.

use crate::tests::build::{Clocks, event, kind, set, sets, vector};
use crate::tests::line::{Line, Shape};
use crate::{Entry, Event, plain};
use pr_inval::{Kind, Session};
use pr_sets::NameSet;
use pr_stamps::{MAX, NoMemory, Seq};
use std::alloc::Global;

/// The entries of A, B and C, and all of them in order. Each node has one set, or none where its text is empty.
#[derive(Drop)]
pub struct Replay<'a> {
    texts: [&'a [u8]; 3],
    a: Seq<Entry>,
    b: Seq<Entry>,
    c: Seq<Entry>,
    pub all: Seq<Entry>,
    first: Stream,
    second: Stream,
}

/// A stream, with its session.
#[derive(Drop)]
pub struct Stream {
    pub source: u32,
    pub destination: u32,
    pub session: Session,
}

impl Stream {
    /// A stream of these names that is not attached.
    pub fn new(
        alloc: Global,
        number: u32,
        nodes: (u32, u32),
        names: &[u8],
        bodies: bool,
    ) -> Option<Stream> {
        let sub = set(alloc, names)?;
        if sub.is_empty() {
            return None;
        }
        Some(Stream {
            source: nodes.0,
            destination: nodes.1,
            session: Session::new(alloc, number, sub, bodies),
        })
    }

    // The stream has sent this at this time.
    fn note(&mut self, kind: &Kind, time: u64) -> Option<()> {
        self.session.room().ok()?;
        if !self.session.is_attached() || time > MAX || time <= self.session.time() {
            return None;
        }
        match kind {
            Kind::Body { name, stamp, .. } => self.session.sent_body(name, stamp, time),
            Kind::Precise { to, .. } => self.session.sent(to, time),
            Kind::Imprecise { to, .. } => self.session.sent(to, time),
            Kind::Checkpoint { to, .. } => self.session.sent(to, time),
        }
        Some(())
    }
}

impl<'a> Replay<'a> {
    /// The history without an entry, of nodes with these sets and of two streams.
    pub fn new(alloc: Global, texts: [&'a [u8]; 3], first: Stream, second: Stream) -> Replay<'a> {
        Replay {
            texts,
            a: Seq::new(alloc),
            b: Seq::new(alloc),
            c: Seq::new(alloc),
            all: Seq::new(alloc),
            first,
            second,
        }
    }

    pub fn entries(&self, node: u32) -> &[Entry] {
        match node {
            0 => self.a.as_slice(),
            1 => self.b.as_slice(),
            _ => self.c.as_slice(),
        }
    }

    pub fn sets(&self, alloc: Global, node: u32) -> Option<Seq<NameSet>> {
        match node {
            0 => sets(alloc, self.texts[0]),
            1 => sets(alloc, self.texts[1]),
            _ => sets(alloc, self.texts[2]),
        }
    }

    pub fn stream(&self, number: u32) -> &Stream {
        if number == 0 {
            &self.first
        } else {
            &self.second
        }
    }

    /// The node of the line's event.
    pub fn node(&self, line: &Line) -> u32 {
        match line {
            Line::Write(_, _, _, at, _, _) => at.1,
            Line::Delete(_, _, at, _, _) => at.1,
            Line::Send(stream, _, _) => self.stream(*stream).source,
            Line::Idle(stream) => self.stream(*stream).source,
            Line::Stale(stream, _) => self.stream(*stream).source,
            Line::Attach(stream, _) => self.stream(*stream).destination,
            Line::Accept(stream, _, _, _) => self.stream(*stream).destination,
            Line::Read(_, node, _, _, _) => *node,
            Line::Behind(_, node, _, _) => *node,
            Line::Move(_, node) => *node,
            Line::Cut(node, _) => *node,
            Line::Drop(node, _) => *node,
            Line::Conflicts(node, _, _) => *node,
            Line::State(node, _, _, _, _) => *node,
        }
    }

    // The time that the line's event hears of.
    fn heard(&self, line: &Line) -> u64 {
        match line {
            Line::Attach(stream, _) => plain::stream_time(self.all.as_slice(), *stream),
            Line::Send(stream, _, _) => plain::stream_time(self.all.as_slice(), *stream),
            Line::Idle(stream) => plain::stream_time(self.all.as_slice(), *stream),
            Line::Stale(stream, _) => plain::stream_time(self.all.as_slice(), *stream),
            Line::Accept(stream, number, _, _) => sent_at(self.all.as_slice(), *stream, *number),
            _ => 0,
        }
    }

    /// Adds the entry of the line.
    pub fn take(&mut self, alloc: Global, line: &Line) -> Option<()> {
        let heard = self.heard(line);
        let last = last_time(self.entries(self.node(line)));
        let time = last.max(heard).checked_add(1)?;
        self.add(alloc, line, time, heard)?;
        match line {
            Line::Attach(stream, at) => self.begin(*stream, at),
            Line::Send(stream, _, shape) => self.note(alloc, *stream, shape, time)?,
            _ => {}
        }
        Some(())
    }

    fn add(&mut self, alloc: Global, line: &Line, time: u64, heard: u64) -> Option<()> {
        self.all.push(entry(alloc, line, time, heard)?).ok()?;
        let node = self.node(line);
        self.push(node, entry(alloc, line, time, heard)?).ok()
    }

    fn push(&mut self, node: u32, entry: Entry) -> Result<(), NoMemory> {
        match node {
            0 => self.a.push(entry),
            1 => self.b.push(entry),
            _ => self.c.push(entry),
        }
    }

    fn begin(&mut self, stream: u32, at: &Clocks) {
        if stream == 0 {
            self.first.session.begin(&vector(at));
        } else {
            self.second.session.begin(&vector(at));
        }
    }

    fn note(&mut self, alloc: Global, stream: u32, shape: &Shape, time: u64) -> Option<()> {
        let kind = kind(alloc, shape)?;
        if stream == 0 {
            self.first.note(&kind, time)
        } else {
            self.second.note(&kind, time)
        }
    }
}

// The entry of the line, at this time.
fn entry(alloc: Global, line: &Line, time: u64, heard: u64) -> Option<Entry> {
    let sent = match line {
        Line::Accept(_, _, _, _) => heard,
        _ => time,
    };
    Some(Entry {
        time,
        caller: 0,
        event: event(alloc, line, sent)?,
    })
}

// The time of the last entry.
fn last_time(entries: &[Entry]) -> u64 {
    match entries.last() {
        Some(entry) => entry.time,
        None => 0,
    }
}

// The time of the stream's message with this number.
fn sent_at(all: &[Entry], stream: u32, number: u64) -> u64 {
    for entry in all {
        match &entry.event {
            Event::Sent { msg } => {
                if msg.stream == stream && msg.number == number {
                    return msg.time;
                }
            }
            _ => {}
        }
    }
    0
}

// The groups of events.

use crate::entries::event_at;
use crate::fields::fields;
use crate::font::Font;
use crate::place::Place;
use crate::scene::{Route, Scene};
use crate::sketch::Sketch;
use crate::stroke::Stroke;
use crate::symbol::Symbol;
use crate::way::Way;
use pr_inval::{Kind, Msg};
use pr_stamps::NoMemory;
use pr_story::{Event, Reply};

/// Draws the event at this place of the history: a message on its way, or a symbol at its node, with words of its line.
pub fn draw_event(
    scene: &Scene<'_>,
    at: usize,
    line: &[u8],
    sketch: &mut Sketch,
) -> Result<(), NoMemory> {
    match event_at(scene.engine, at) {
        Some((_, Event::Sent { msg })) => draw_sent(scene, at, msg, line, sketch),
        Some((node, Event::Accepted { msg, .. })) => {
            draw_arrival(scene, at, msg, sketch)?;
            sketch.symbol(Symbol::Accept, scene.place(node, at))?;
            sketch.words(Font::Words, under(scene, node, at, msg), line)
        }
        Some((node, Event::Gapped { msg, .. })) => {
            draw_arrival(scene, at, msg, sketch)?;
            sketch.symbol(Symbol::Cross, scene.place(node, at))?;
            sketch.words(Font::Warning, under(scene, node, at, msg), line)
        }
        Some((node, event)) => draw_symbol(event, scene.place(node, at), line, sketch),
        None => Ok(()),
    }
}

// ---- messages

// How far the line of a message goes that did not come.
const STUB: u64 = 100;

// How many rows may lie between a message's ends where its line is drawn in full.
const FAR: usize = 20;

// Draws the way of a message from its send to its first arrival, or as far as it came.
fn draw_sent(
    scene: &Scene<'_>,
    at: usize,
    msg: &Msg,
    line: &[u8],
    sketch: &mut Sketch,
) -> Result<(), NoMemory> {
    let Some(route) = scene.route(msg.stream) else {
        return Ok(());
    };
    let from = scene.place(route.source, at);
    match scene.flights.arrival(at) {
        Some(came) => draw_flight(scene, msg, route, at, came, sketch)?,
        None => {
            let end = from.toward(&scene.place(route.dest, at), STUB).beyond(0, 8);
            sketch.line(stroke_of(&msg.kind), Way::Lost, from, end)?;
            sketch.symbol(Symbol::Cross, end)?;
        }
    }
    let words = fields(line, 1, sent_fields(&msg.kind));
    sketch.words(
        Font::Words,
        scene.beside(from, route.source, route.dest),
        words,
    )
}

// Draws the way of a message that came before too.
fn draw_arrival(
    scene: &Scene<'_>,
    at: usize,
    msg: &Msg,
    sketch: &mut Sketch,
) -> Result<(), NoMemory> {
    let (Some(route), Some(sent)) = (scene.route(msg.stream), scene.flights.sent(msg)) else {
        return Ok(());
    };
    if scene.flights.arrival(sent) == Some(at) {
        return Ok(());
    }
    draw_flight(scene, msg, route, sent, at, sketch)
}

// Draws a line from where the message was sent to where it came.
fn draw_flight(
    scene: &Scene<'_>,
    msg: &Msg,
    route: Route,
    sent: usize,
    came: usize,
    sketch: &mut Sketch,
) -> Result<(), NoMemory> {
    let from = scene.place(route.source, sent);
    let to = scene.place(route.dest, came);
    sketch.line(stroke_of(&msg.kind), way_of(scene, sent, came), from, to)
}

fn way_of(scene: &Scene<'_>, sent: usize, came: usize) -> Way {
    match event_at(scene.engine, came) {
        Some((_, Event::Gapped { .. })) => Way::Lost,
        _ if came.saturating_sub(sent) > FAR => Way::Far,
        _ => Way::Near,
    }
}

// Where the words of an arrival stand: under the line, where it comes from the right.
fn under(scene: &Scene<'_>, node: u32, at: usize, msg: &Msg) -> Place {
    let beside = scene.place(node, at).beside();
    match scene.route(msg.stream) {
        Some(route) if route.dest < route.source => beside.beyond(0, 9),
        _ => beside,
    }
}

fn stroke_of(kind: &Kind) -> Stroke {
    match kind {
        Kind::Precise { .. } => Stroke::Precise,
        Kind::Imprecise { .. } => Stroke::Imprecise,
        Kind::Checkpoint { .. } => Stroke::Checkpoint,
        Kind::Body { .. } => Stroke::Body,
    }
}

// How many fields behind the first word are shown: up to the stamp, or the target.
fn sent_fields(kind: &Kind) -> usize {
    match kind {
        Kind::Precise { .. } => 5,
        Kind::Imprecise { .. } => 4,
        Kind::Checkpoint { .. } => 4,
        Kind::Body { .. } => 5,
    }
}

// ---- other events

fn draw_symbol(event: &Event, at: Place, line: &[u8], sketch: &mut Sketch) -> Result<(), NoMemory> {
    let symbol = symbol_of(event);
    let font = match symbol {
        Symbol::Pending | Symbol::Cross => Font::Warning,
        _ => Font::Words,
    };
    sketch.symbol(symbol, at)?;
    sketch.words(font, at.beside(), fields(line, 0, shown_fields(event)))
}

fn symbol_of(event: &Event) -> Symbol {
    match event {
        Event::Wrote { write, .. } if write.gone => Symbol::Delete,
        Event::Wrote { .. } => Symbol::Write,
        Event::Answered { reply, .. } if is_pending(reply) => Symbol::Pending,
        Event::Answered { .. } => Symbol::Read,
        Event::Behind { .. } => Symbol::Pending,
        Event::Moved { .. } => Symbol::Move,
        Event::Attached { .. } => Symbol::Attach,
        Event::Idle { .. } => Symbol::Idle,
        Event::Cut { .. } => Symbol::Cut,
        Event::Dropped { .. } => Symbol::Drop,
        Event::Conflicts { .. } => Symbol::Conflicts,
        Event::State { .. } => Symbol::State,
        Event::Stale { .. } | Event::Missing { .. } | Event::Down { .. } => Symbol::Cross,
        Event::Sent { .. } | Event::Accepted { .. } | Event::Gapped { .. } => Symbol::Accept,
    }
}

// A read that was not answered with the newest write.
fn is_pending(reply: &Reply) -> bool {
    matches!(reply, Reply::Imprecise { .. } | Reply::Body { .. })
}

// How many fields of the line are shown: of a write up to its stamp, of a read up to its answer, and else as many as
// there may be.
fn shown_fields(event: &Event) -> usize {
    match event {
        Event::Wrote { write, .. } if write.gone => 4,
        Event::Wrote { .. } => 5,
        Event::Answered { reply, .. } => match reply {
            Reply::Never => 4,
            Reply::Value { .. } => 6,
            _ => 5,
        },
        _ => 32,
    }
}

// The entries of a history.

use pr_sim::Engine;
use pr_story::Event;

/// The event at this place of the history, the oldest being at 0, and its node, in constant time.
pub fn event_at(engine: &Engine, at: usize) -> Option<(u32, &Event)> {
    let (node, place) = *engine.history().get(at)?;
    let journal = engine.journal(node)?;
    if place >= journal.len() {
        return None;
    }
    Some((node, &journal.entry(place).event))
}

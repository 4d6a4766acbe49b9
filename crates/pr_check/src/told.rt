// What a line is read as.

use pr_story::Event;

/// An event and its node, which is 0 where the line does not name it.
#[derive(Drop)]
pub struct Told {
    pub node: u32,
    pub event: Event,
}

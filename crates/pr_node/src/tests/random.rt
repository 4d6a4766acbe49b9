// Random lists of calls, with messages gone astray and forged ones: each makes the entry that the definitions give.
ghost use Rattle.std.specs.Prelude.{◌<◌};

use crate::tests::alike::is_alike;
use crate::tests::call::{At, Call, Clocks, Forgery};
use crate::tests::world::World;
use pr_story::{Cause, Event};
use rand_core::SeedableRng;
use rand_core::utils::NextWord;
use rand_pcg::Lcg64Xsh32;
use std::alloc::Global;
use std::test::Fail;

const LISTS: u64 = 200;

const CALLS: u32 = 40;

const NAMES: [&[u8]; 6] = [b"a/x", b"a/y", b"b", b"c/1", b"c/2", b"d"];

const SETS: [(&[u8], &[u8]); 4] = [
    (b"*", b""),
    (b"a/*", b"c/*"),
    (b"", b""),
    (b"a/x,b", b"c/1:~"),
];

const TARGETS: [&[u8]; 5] = [b"*", b"a/*", b"b:c/2", b"a/x,c/*", b"d"];

/// A generator of draws.
#[derive(Drop)]
struct Draws {
    words: Lcg64Xsh32,
}

impl Draws {
    fn below(&mut self, count: u32) -> u32
        requires { 0 < count }
        ensures { result < count }
    {
        self.words.next_word() % count
    }

    fn bool(&mut self) -> bool {
        self.below(2) == 0
    }

    fn clock(&mut self) -> u64
        ensures { result < 5 }
    {
        u64::from(self.below(5))
    }

    fn name(&mut self) -> &'static [u8] {
        NAMES[self.below(6) as usize]
    }

    fn target(&mut self) -> &'static [u8] {
        TARGETS[self.below(5) as usize]
    }

    fn sets(&mut self) -> (&'static [u8], &'static [u8]) {
        SETS[self.below(4) as usize]
    }

    fn clocks(&mut self) -> Clocks {
        [self.clock(), self.clock(), self.clock()]
    }
}

// Three nodes in a ring, each with a stream to the next.
fn world(alloc: Global, draws: &mut Draws) -> Option<World> {
    let sets = [draws.sets(), draws.sets(), draws.sets()];
    let links = [
        (0, 1, draws.target(), draws.bool()),
        (1, 2, draws.target(), draws.bool()),
        (2, 0, draws.target(), draws.bool()),
    ];
    World::new(alloc, &sets, &links)
}

// ---- calls

fn call(draws: &mut Draws, world: &World) -> Option<Call<'static>> {
    let node = draws.below(3);
    let client = draws.below(2);
    Some(match draws.below(16) {
        0 | 1 => Call::Write(client, node, draws.name(), draws.name()),
        2 => Call::Delete(client, node, draws.name()),
        3 | 4 => Call::Read(client, node, draws.name()),
        5 => asked(draws, node),
        6 => told(draws, node, client),
        7 => Call::Forged(node, 1, forgery(draws)),
        8..=11 => sent(draws, world)?,
        _ => accepted(draws, world, node)?,
    })
}

fn asked(draws: &mut Draws, node: u32) -> Call<'static> {
    match draws.below(4) {
        0 => Call::Cut(node),
        1 => Call::Drop(node, draws.name()),
        2 => Call::Conflicts(node, draws.name()),
        _ => Call::State(node),
    }
}

fn told(draws: &mut Draws, node: u32, client: u32) -> Call<'static> {
    let stream = draws.below(3);
    match draws.below(4) {
        0 => Call::Move(client, node),
        1 => Call::Missing(stream, 99),
        2 => Call::Down(stream, Cause::Ended),
        _ => Call::Attach(stream),
    }
}

fn sent(draws: &mut Draws, world: &World) -> Option<Call<'static>> {
    let stream = draws.below(3);
    if !world.stream(stream)?.session.is_attached() {
        return Some(Call::Attach(stream));
    }
    if draws.below(8) == 0 {
        return Some(Call::Checkpoint(stream));
    }
    Some(Call::Turn(stream))
}

// The last message of a stream at its destination, or one of its messages at some node.
fn accepted(draws: &mut Draws, world: &World, node: u32) -> Option<Call<'static>> {
    let number = draws.below(3);
    let stream = world.stream(number)?;
    let last = stream.session.number();
    if last == 0 {
        return Some(Call::State(node));
    }
    if draws.bool() {
        return Some(Call::Accept(stream.destination, number, last));
    }
    Some(Call::Accept(node, number, u64::from(draws.below(40)) % last + 1))
}

// ---- messages that nobody sent

fn forgery(draws: &mut Draws) -> Forgery<'static> {
    let (from, other) = (draws.clocks(), draws.clocks());
    let to = later(&from, &other);
    let node = draws.below(3);
    let clock = draws.clock() + 1;
    match draws.below(3) {
        0 => Forgery::Body(draws.name(), (clock, node), draws.name()),
        1 => Forgery::Imprecise(draws.target(), from, to),
        _ => {
            let from = with_clock(&from, node, clock - 1);
            let to = later(&to, &with_clock(&from, node, clock));
            Forgery::Precise(draws.name(), (clock, node), over(clock, node), from, to)
        }
    }
}

// The greater one of each two clocks.
fn later(a: &Clocks, b: &Clocks) -> Clocks {
    [a[0].max(b[0]), a[1].max(b[1]), a[2].max(b[2])]
}

fn with_clock(clocks: &Clocks, node: u32, clock: u64) -> Clocks
    requires { node < 3 }
{
    let mut clocks = *clocks;
    clocks[node as usize] = clock;
    clocks
}

// The stamp of the node before this one, if there is one.
fn over(clock: u64, node: u32) -> Option<At> {
    if clock > 1 {
        Some((clock - 1, node))
    } else {
        None
    }
}

// ---- lists

// The place of the event's kind among the sixteen.
fn place(event: &Event) -> usize {
    match event {
        Event::Wrote { .. } => 0,
        Event::Attached { .. } => 1,
        Event::Sent { .. } => 2,
        Event::Idle { .. } => 3,
        Event::Stale { .. } => 4,
        Event::Accepted { .. } => 5,
        Event::Gapped { .. } => 6,
        Event::Missing { .. } => 7,
        Event::Down { .. } => 8,
        Event::Answered { .. } => 9,
        Event::Behind { .. } => 10,
        Event::Moved { .. } => 11,
        Event::Cut { .. } => 12,
        Event::Dropped { .. } => 13,
        Event::Conflicts { .. } => 14,
        Event::State { .. } => 15,
    }
}

// The kinds of event that these nodes made, beside those.
fn note(world: &World, kinds: &mut [bool; 16]) {
    for site in &world.sites {
        for entry in site.entries() {
            if let Some(kind) = kinds.get_mut(place(&entry.event)) {
                *kind = true;
            }
        }
    }
}

// Whether each call of the seed's list makes the entry that the definitions give.
fn is_list_alike(alloc: Global, seed: u64, kinds: &mut [bool; 16]) -> Option<bool> {
    let mut draws = Draws {
        words: Lcg64Xsh32::seed_from_u64(seed),
    };
    let mut world = world(alloc, &mut draws)?;
    for _ in 0..CALLS {
        let call = call(&mut draws, &world)?;
        if !is_alike(alloc, &mut world, &call)? {
            return Some(false);
        }
    }
    note(&world, kinds);
    Some(true)
}

#[test]
fn lists_of_calls(rt: HostRuntime) -> Result<(), Fail> {
    let mut kinds = [false; 16];
    for seed in 0..LISTS {
        assert!(rt; is_list_alike(rt.alloc(), seed, &mut kinds).ok_or("a call")?);
    }
    assert!(rt; kinds.iter().all(|kind| *kind));
    Ok(())
}

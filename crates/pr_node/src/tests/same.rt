// Whether two entries are the same.

use pr_inval::{Kind, Msg, Row};
use pr_sets::NameSet;
use pr_story::{Entry, Event, Found, Reply};

/// Whether time, caller and event are the same.
pub fn is_same_entry(a: &Entry, b: &Entry) -> bool {
    a.time == b.time && a.caller == b.caller && is_same_event(&a.event, &b.event)
}

fn is_same_event(a: &Event, b: &Event) -> bool {
    match a {
        Event::Attached { stream, at } => {
            matches!(b, Event::Attached { stream: s, at: v } if s == stream && v.get() == at.get())
        }
        Event::Sent { msg } => matches!(b, Event::Sent { msg: m } if is_same_message(m, msg)),
        Event::Idle { stream } => matches!(b, Event::Idle { stream: s } if s == stream),
        Event::Stale { stream, cut } => {
            matches!(b, Event::Stale { stream: s, cut: v } if s == stream && v.get() == cut.get())
        }
        Event::Accepted { msg, at } => {
            matches!(b, Event::Accepted { msg: m, at: v } if v.get() == at.get() && is_same_message(m, msg))
        }
        Event::Gapped { msg, has } => {
            matches!(b, Event::Gapped { msg: m, has: v } if v.get() == has.get() && is_same_message(m, msg))
        }
        Event::Missing { stream, number } => {
            matches!(b, Event::Missing { stream: s, number: n } if s == stream && n == number)
        }
        Event::Down { stream, cause } => {
            matches!(b, Event::Down { stream: s, cause: c } if s == stream && c == cause)
        }
        _ => is_same_call(a, b),
    }
}

// Of events that are of no stream.
fn is_same_call(a: &Event, b: &Event) -> bool {
    match a {
        Event::Wrote {
            client,
            write,
            body,
            after,
        } => matches!(
            b,
            Event::Wrote { client: c, write: w, body: s, after: v }
                if c == client && w == write && v.get() == after.get() && s.as_slice() == body.as_slice()
        ),
        Event::Answered {
            client,
            name,
            reply,
            at,
        } => matches!(
            b,
            Event::Answered { client: c, name: o, reply: r, at: v }
                if c == client && o == name && v.get() == at.get() && is_same_reply(r, reply)
        ),
        Event::Behind { client, needs, has } => matches!(
            b,
            Event::Behind { client: c, needs: n, has: v } if c == client && n.get() == needs.get() && v.get() == has.get()
        ),
        Event::Moved { client } => matches!(b, Event::Moved { client: c } if c == client),
        Event::Cut { at } => matches!(b, Event::Cut { at: v } if v.get() == at.get()),
        Event::Dropped { name } => matches!(b, Event::Dropped { name: o } if o == name),
        Event::Conflicts { name, found } => {
            matches!(b, Event::Conflicts { name: o, found: f } if o == name && is_same_found(f, found))
        }
        Event::State {
            at,
            cut,
            floor,
            precise,
        } => matches!(
            b,
            Event::State { at: v, cut: c, floor: f, precise: p }
                if v.get() == at.get() && c.get() == cut.get() && f.get() == floor.get() && p.as_slice() == precise.as_slice()
        ),
        _ => false,
    }
}

fn is_same_reply(a: &Reply, b: &Reply) -> bool {
    match a {
        Reply::Never => matches!(b, Reply::Never),
        Reply::Value { stamp, bytes } => {
            matches!(b, Reply::Value { stamp: s, bytes: t } if s == stamp && t.as_slice() == bytes.as_slice())
        }
        Reply::Imprecise { untold } => matches!(b, Reply::Imprecise { untold: s } if s == untold),
        Reply::Body { stamp } => matches!(b, Reply::Body { stamp: s } if s == stamp),
        Reply::Gone { stamp } => matches!(b, Reply::Gone { stamp: s } if s == stamp),
    }
}

fn is_same_found(a: &Found, b: &Found) -> bool {
    match a {
        Found::Pairs(pairs) => matches!(b, Found::Pairs(p) if p.as_slice() == pairs.as_slice()),
        Found::Imprecise { untold } => matches!(b, Found::Imprecise { untold: s } if s == untold),
    }
}

// ---- messages

fn is_same_message(a: &Msg, b: &Msg) -> bool {
    a.time == b.time
        && a.stream == b.stream
        && a.number == b.number
        && is_same_kind(&a.kind, &b.kind)
}

fn is_same_kind(a: &Kind, b: &Kind) -> bool {
    match a {
        Kind::Precise { from, to, write } => {
            matches!(b, Kind::Precise { from: v, to: w, write: x } if v.get() == from.get() && w.get() == to.get() && x == write)
        }
        Kind::Imprecise { from, to, target } => matches!(
            b,
            Kind::Imprecise { from: v, to: w, target: t }
                if v.get() == from.get() && w.get() == to.get() && is_same_set(t, target)
        ),
        Kind::Checkpoint {
            to,
            target,
            floor,
            rows,
        } => matches!(
            b,
            Kind::Checkpoint { to: w, target: t, floor: f, rows: r }
                if w.get() == to.get() && f.get() == floor.get() && is_same_set(t, target) && are_same_rows(r.as_slice(), rows.as_slice())
        ),
        Kind::Body { name, stamp, bytes } => matches!(
            b,
            Kind::Body { name: o, stamp: s, bytes: t }
                if o == name && s == stamp && t.as_slice() == bytes.as_slice()
        ),
    }
}

fn is_same_set(a: &NameSet, b: &NameSet) -> bool {
    a.within(b) && b.within(a)
}

fn are_same_rows(a: &[Row], b: &[Row]) -> bool {
    let mut both = a.iter().zip(b.iter());
    a.len() == b.len() && both.all(|(row, other)| is_same_row(row, other))
}

fn is_same_row(a: &Row, b: &Row) -> bool {
    a.name == b.name
        && a.newest == b.newest
        && a.gone == b.gone
        && a.marks.as_slice() == b.marks.as_slice()
}

use crate::{Kind, read};
use std::alloc::Global;

const MIXED: &[u8] =
    b"node A *\nclient c A\nnode B *\nstream s A B *\nclient d B\nstream t B A *\n";

// Whether this is the label with this number of its kind.
fn is_label_at(alloc: Global, kind: Kind, number: u32, label: &[u8]) -> Option<bool> {
    let script = read(alloc, MIXED).ok()?;
    Some(script.decls.label(kind, number) == label)
}

#[test]
fn labels_of_a_mixed_list_stand_by_number(rt: HostRuntime) {
    let cases: [(Kind, u32, &[u8]); 9] = [
        (Kind::Node, 0, b"A"),
        (Kind::Node, 1, b"B"),
        (Kind::Node, 2, b""),
        (Kind::Client, 0, b"c"),
        (Kind::Client, 1, b"d"),
        (Kind::Client, 2, b""),
        (Kind::Stream, 0, b"s"),
        (Kind::Stream, 1, b"t"),
        (Kind::Stream, 2, b""),
    ];
    for (kind, number, label) in cases {
        assert!(rt; is_label_at(rt.alloc(), kind, number, label).unwrap_or(false));
    }
}

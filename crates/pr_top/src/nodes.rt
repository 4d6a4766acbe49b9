// The nodes that a script declares.
ghost use Rattle.pr_script.specs.Labels.{AreLabels, number_among};
ghost use Rattle.pr_script.specs.declared.kind.Kind.TheVariants as kinds;
ghost use Rattle.pr_text.specs.Numbers.{Has, nodes_of};
ghost use Rattle.pr_text.specs.Transcripts.{plan_of, sets_of};
ghost use Rattle.std.specs.List.{position};
ghost use Rattle.std.specs.Prelude.{◌≡◌, IfSome};
ghost use Rattle.std.specs.Str.{bytes_eq};

use pr_script::{Bytes, Decl, Decls, Kind, is_kind};
use pr_sets::NameSet;

/// The number of the node with this label, in time linear in the nodes and their labels.
pub fn number_of(decls: &Decls, label: &[u8]) -> Option<u32>
    requires { AreLabels decls.now.list }
    ensures number { result ≡ number_among kinds.Node decls.now.list label.now }
    ensures declared { IfSome result (Has decls.now.list kinds.Node) }
{
    match place_of(decls.labels(Kind::Node), label) {
        Some(place) => Some(place as u32),
        None => None,
    }
}

/// How many nodes are declared, in constant time.
pub fn node_count(decls: &Decls) -> u32
    requires { AreLabels decls.now.list }
    ensures { result ≡ nodes_of decls.now.list }
{
    decls.labels(Kind::Node).len() as u32
}

fn place_of(labels: &[Bytes], label: &[u8]) -> Option<usize>
    ensures { result ≡ position (bytes_eq label.now) labels.now }
{
    labels.iter().position(|known| label == known.as_slice())
}

/// The sets of the node with this number, in time linear in the declarations; none where there are not so many nodes.
pub fn sets_at(decls: &[Decl], number: u32) -> &[NameSet]
    ensures { result.now ≡ (plan_of decls.now).sets number }
{
    let mut left = number;
    for decl in decls {
        if is_kind(Kind::Node, decl) {
            if left == 0 {
                return sets_of(decl);
            }
            left -= 1;
        }
    }
    &[]
}

fn sets_of(decl: &Decl) -> &[NameSet]
    ensures { result.now ≡ sets_of decl.now }
{
    match decl {
        Decl::Node { sets, .. } => sets.as_slice(),
        _ => &[],
    }
}

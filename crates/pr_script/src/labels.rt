// Labels by number.
ghost use Rattle.pr_script.specs.Labels.{is_kind, kind_of, label_of};
ghost use Rattle.pr_script.specs.Printing.{label_text};
ghost use Rattle.std.specs.Prelude.{◌≡◌};

use crate::Decl;
use crate::kind::Kind;

/// The label with this number of its kind, in time linear in the declarations; nothing where there are not so many.
pub fn label_at<'a>(decls: &'a [Decl], kind: Kind, number: u32) -> &'a [u8]
    ensures { result.now ≡ label_text kind decls.now number }
{
    let mut left = number;
    for decl in decls {
        if is_kind(kind, decl) {
            if left == 0 {
                return label_of(decl);
            }
            left -= 1;
        }
    }
    b"".as_slice()
}

/// Whether the declaration is one of this kind.
pub fn is_kind(kind: Kind, decl: &Decl) -> bool
    ensures { result ≡ is_kind kind decl.now }
{
    match (kind, decl) {
        (Kind::Node, Decl::Node { .. }) => true,
        (Kind::Client, Decl::Client { .. }) => true,
        (Kind::Stream, Decl::Stream { .. }) => true,
        _ => false,
    }
}

/// The label that is declared.
pub fn label_of(decl: &Decl) -> &[u8]
    ensures { result.now ≡ label_of decl.now }
{
    match decl {
        Decl::Node { label, .. } => label.as_slice(),
        Decl::Client { label, .. } => label.as_slice(),
        Decl::Stream { label, .. } => label.as_slice(),
    }
}

pub fn kind_of(decl: &Decl) -> Kind
    ensures { result ≡ kind_of decl.now }
{
    match decl {
        Decl::Node { .. } => Kind::Node,
        Decl::Client { .. } => Kind::Client,
        Decl::Stream { .. } => Kind::Stream,
    }
}
